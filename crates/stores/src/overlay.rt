ghost use Rattle.std.specs.Prelude.{◌≡◌, List, replicate, ℤ, pos, None, slice_index_or};
ghost use Rattle.stores.specs.Overlay.{TableWritten, over_meaning, overlaid, table_size};
ghost use Rattle.stores.specs.Stores.{Written};
ghost use Rattle.std.proofs.Common.{arith};
ghost use Rattle.stores.specs.Overlays.{over_inside, over_outside, overlaid_length, overlaid_weights};

use crate::fault::StoreFault;
use crate::store::Store;
use crate::table::Table;

/// A store that stands on another, which it never writes, and keeps up to 32 other values in a
/// table.
#[derive(Debug, Drop)]
pub struct Overlay<S: Store> {
    below: S,
    table: Table,
}

impl<S: Store> Overlay<S> {
    /// An overlay that shows what is below.
    #[tactic(auto, using(crate::specs::Overlays::overlaid_none, crate::proofs::Tables::empty_lookup))]
    pub fn new(below: S) -> Overlay<S>
        ensures below { result.below ≡ below }
        ensures table { result.table.slots ≡ replicate table_size None }
        ensures shows { (es : List ℤ) → overlaid 0 result.table.slots es ≡ es }
    {
        Overlay {
            below,
            table: Table::new(),
        }
    }

    /// The store below.
    pub fn below(&self) -> &S
        ensures { result.now ≡ self.now.below }
    {
        &self.below
    }

    /// Takes the overlay off: the store below, as it was.
    pub fn into_below(self) -> S
        ensures { result ≡ self.below }
    {
        let Overlay { below, table: _ } = self;
        below
    }
}

impl<S: Store> Store for Overlay<S> {
    ghost meaning = { λ o. over_meaning o.table.slots (S.meaning o.below) };

    ghost lawful = { λ s.
        let slots = s.table.slots in
        let entries = (S.meaning s.below).entries in
        let below = S.lawful s.below in
        let long = overlaid_length 0 slots entries in
        let few = below.few in
        record {
          few = omega arith;
          weights = overlaid_weights 0 slots s.table.weights entries below.weights;
          outside = λ p v w h. over_outside slots entries p v (omega arith);
          inside = λ p v w h. over_inside slots entries p v (omega arith);
        } };

    #[tactic(auto, using(crate::specs::Overlays::overlaid_length))]
    fn size(&self) -> usize {
        self.below.size()
    }

    #[tactic(auto, using(crate::specs::Overlays::read_overlaid))]
    fn read(&self, place: usize) -> Option<i16> {
        self.below
            .read(place)
            .map(|entry| self.table.get(place).unwrap_or(entry))
    }

    fn holds(&self, place: usize, value: i16) -> Result<(), StoreFault> {
        let entry = self.below.read(place).ok_or(StoreFault::Place)?;
        if value == entry || self.table.has_room(place) {
            Ok(())
        } else {
            Err(StoreFault::Full)
        }
    }

    fn write(&mut self, place: usize, value: i16) -> Result<(), StoreFault>
        ensures written { Written
            (over_meaning self.old.table.slots (S.meaning self.old.below))
            place value result
            (over_meaning self.new.table.slots (S.meaning self.new.below)) }
        ensures below { self.new.below ≡ self.old.below }
        ensures table { TableWritten self.old.table.slots place
            (slice_index_or (S.meaning self.old.below).entries place (pos 0))
            value result self.new.table.slots }
    {
        let entry = self.below.read(place).ok_or(StoreFault::Place)?;
        if value == entry {
            self.table.remove(place);
            return Ok(());
        }
        self.table.put(place, value)
    }
}

#[cfg(test)]
mod tests {
    use super::*;
    use crate::compare::differing;
    use crate::plain::Plain;
    use std::test::Fail;

    #[test]
    fn takes_thirty_two_places(rt: HostRuntime) -> Result<(), Fail> {
        let mut store = Overlay::new(Plain::new(vec![in rt.alloc(); 0i16; 40]?));
        for place in 0..32 {
            assert_eq!(rt; store.write(place, 1), Ok(()));
        }
        assert_eq!(rt; store.write(32, 1), Err(StoreFault::Full));
        assert_eq!(rt; store.write(31, 2), Ok(()));
        assert_eq!(rt; store.write(31, 0), Ok(()));
        assert_eq!(rt; store.write(32, 1), Ok(()));
        Ok(())
    }

    #[test]
    fn overlays_stack(rt: HostRuntime) -> Result<(), Fail> {
        let mut lower = Overlay::new(Plain::new(vec![in rt.alloc(); 0i16; 4]?));
        assert_eq!(rt; lower.write(0, 5), Ok(()));
        let mut upper = Overlay::new(lower);
        assert_eq!(rt; upper.write(0, 0), Ok(()));
        assert_eq!(rt; (upper.read(0), upper.below().read(0)), (Some(0), Some(5)));
        assert_eq!(rt; upper.write(0, 5), Ok(()));
        assert_eq!(rt; upper.write(1, 7), Ok(()));
        assert_eq!(rt; differing(&upper, upper.below()), 1);
        let lower = upper.into_below();
        assert_eq!(rt; differing(&lower, lower.below()), 1);
        Ok(())
    }
}
