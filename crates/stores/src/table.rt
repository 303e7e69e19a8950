ghost use Rattle.std.specs.Prelude.{All, ◌≡◌, ℕ, ◌<◌, true, false, length, replicate, ℤ, is_some, Some, None, MatchOption, ◌≢◌, slice_index_or};
ghost use Rattle.rounding.specs.Numbers.{Weight};
ghost use Rattle.stores.specs.Overlay.{Changed, lookup, room, table_size};
ghost use Rattle.stores.specs.Tables.{Apart, Put, Seat, TableWeights, place_of, slot_with};

use crate::fault::StoreFault;
use crate::patch::Patch;

// How many places a table has room for.
const SLOTS: usize = 32;

/// The table of an overlay: up to 32 places, each with a value.
#[derive(Debug, Drop)]
pub struct Table {
    slots: [Option<Patch>; SLOTS],
    ghost apart: { Apart slots },
    ghost weights: { TableWeights slots },
}

// The first slot that the place has taken or, for no place, the first free one.
fn find(slots: &[Option<Patch>], place: Option<usize>) -> Option<usize>
    ensures { MatchOption result
        (All (λ s. place_of s ≢ place) slots.now)
        (λ i. (i < length slots.now) × (place_of (slice_index_or slots.now i None) ≡ place)) }
{
    slots
        .iter()
        .position(|slot| slot.map(|patch| patch.place) == place)
}

impl Table {
    // An empty table.
    pub(crate) fn new() -> Table
        ensures { result.slots ≡ replicate table_size None }
    {
        Table {
            slots: [None; SLOTS],
        }
    }

    // The slot that a place has taken, if any.
    #[tactic(auto, using(crate::proofs::Tables::own_slot))]
    fn own_slot(&self, place: usize) -> Option<usize>
        ensures { MatchOption result
            (lookup place self.now.slots ≡ None)
            (λ i. Seat place self.now.slots i
            × (place_of (slice_index_or self.now.slots i None) ≡ Some place)) }
    {
        find(&self.slots, Some(place))
    }

    // The slot for a value at the place: its own, or a free one.
    fn seat(&self, place: usize) -> Option<usize>
        ensures { MatchOption result
            (room place self.now.slots ≡ false)
            (λ i. (room place self.now.slots ≡ true) × Seat place self.now.slots i) }
    {
        self.own_slot(place).or_else(|| find(&self.slots, None))
    }

    // Has the slot keep the value for the place, or frees it where there is none.
    fn fill(&mut self, slot: usize, place: usize, value: Option<i16>)
        requires { Seat place self.old.slots slot }
        ensures { Changed place value self.old.slots self.new.slots }
    {
        self.slots[slot] = value.map(|value| Patch { place, value });
    }

    // The value that the table has for a place.
    pub(crate) fn get(&self, place: usize) -> Option<i16>
        ensures { result ≡ lookup place self.now.slots }
    {
        let slot = self.own_slot(place)?;
        self.slots[slot].map(|patch| patch.value)
    }

    // Whether the table can take a value for the place.
    pub(crate) fn has_room(&self, place: usize) -> bool
        ensures { result ≡ room place self.now.slots }
    {
        self.seat(place).is_some()
    }

    // Puts a value for the place, or leaves the table as it was where it is full.
    pub(crate) fn put(&mut self, place: usize, value: i16) -> Result<(), StoreFault>
        ensures { Put place value self.old.slots result self.new.slots }
    {
        let slot = self.seat(place).ok_or(StoreFault::Full)?;
        self.fill(slot, place, Some(value));
        Ok(())
    }

    // Takes the place out of the table.
    pub(crate) fn remove(&mut self, place: usize)
        ensures { Changed place None self.old.slots self.new.slots }
    {
        if let Some(slot) = self.own_slot(place) {
            self.fill(slot, place, None);
        }
    }
}
