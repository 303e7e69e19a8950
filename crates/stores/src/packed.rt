ghost use Rattle.std.specs.Prelude.{◌≡◌, ◌*◌, ◌/◌, ◌<◌, ◌≤◌, min, take, IfOk, OnOk, Ok, Err, vec_len, MatchResult, slice_index, slice_set};
ghost use Rattle.stores.specs.Halves.{with_half};
ghost use Rattle.stores.specs.Packed.{HalfWritten, PackableTested, most_bytes, most_shift, packable, packed_answer, packed_meaning, scaled, signed_half};
ghost use Rattle.stores.specs.Stores.{Untouched, Written};
ghost use Rattle.std.proofs.Common.{arith};
ghost use Rattle.stores.specs.HalvesLemmas.{answer_inside, answer_outside, packed_length, packed_weights};

use crate::fault::StoreFault;
use crate::half::Half;
pub use crate::shift::MOST_SHIFT;
use crate::shift::Shift;
use crate::store::{MOST_PLACES, Store};

/// Weights as half bytes, two places to a byte, each a number from -8 to 7 times two to the shift.
#[derive(Debug, Drop)]
pub struct Packed {
    bytes: Vec<u8>,
    shift: Shift,
    ghost few: { vec_len bytes ≤ most_bytes },
}

impl Packed {
    /// A store of these bytes, without those past the most places. A larger shift than the largest
    /// counts as that.
    pub fn new(mut bytes: Vec<u8>, shift: u32) -> Packed
        ensures bytes { result.bytes.items ≡ take most_bytes bytes.items }
        ensures shift { result.shift.bits ≡ min shift most_shift }
    {
        bytes.truncate(MOST_PLACES / 2);
        Packed {
            bytes,
            shift: Shift::at_most(shift),
        }
    }

    /// The bytes, as they are now.
    pub fn into_bytes(self) -> Vec<u8>
        ensures { result ≡ self.bytes }
    {
        let Packed { bytes, shift: _ } = self;
        bytes
    }

    /// Whether packed stores with this shift can keep a value.
    pub fn keeps(shift: u32, value: i16) -> bool
        ensures value { result ≡ packable (min shift most_shift) value }
        ensures test { PackableTested }
    {
        Shift::at_most(shift).half_worth(value).is_some()
    }

    // How many places the bytes have.
    fn places(&self) -> usize
        ensures { result ≡ 2 * vec_len self.now.bytes }
    {
        self.bytes.len() * 2
    }

    // The half that a write of the value puts at the place, or why the write is refused.
    fn half_for(&self, place: usize, value: i16) -> Result<Half, StoreFault>
        ensures answer { MatchResult result
            (λ _. packed_answer (vec_len self.now.bytes) self.now.shift.bits place value ≡ Ok tt)
            (λ e. packed_answer (vec_len self.now.bytes) self.now.shift.bits place value ≡ Err e) }
        ensures inside { OnOk result (place / 2 < vec_len self.now.bytes) }
        ensures worth { IfOk result (λ h. scaled self.now.shift.bits (signed_half h.bits) ≡ value) }
    {
        if place >= self.places() {
            return Err(StoreFault::Place);
        }
        self.shift.half_worth(value).ok_or(StoreFault::Value)
    }

    // Puts a half at the place.
    fn put(&mut self, place: usize, half: Half)
        requires { place / 2 < vec_len self.old.bytes }
        ensures bytes { self.new.bytes.items
            ≡ slice_set self.old.bytes.items (place / 2)
            (with_half (slice_index self.old.bytes.items (place / 2)) place half.bits) }
        ensures shift { self.new.shift ≡ self.old.shift }
    {
        let byte = self.bytes[place / 2];
        self.bytes[place / 2] = half.put_into(byte, place);
    }
}

impl Store for Packed {
    ghost meaning = { λ s. packed_meaning s.shift.bits s.bytes.items };

    ghost lawful = { λ s.
        let bytes = s.bytes.items in
        let long = packed_length s.shift.bits bytes in
        record {
          few = omega arith;
          weights = packed_weights s.shift.bits s.shift.small bytes;
          outside = λ p v w h. answer_outside _ s.shift.bits p v (omega arith);
          inside = λ p v w h. answer_inside _ s.shift.bits p v (omega arith);
        } };

    #[tactic(auto, using(crate::specs::HalvesLemmas::packed_length))]
    fn size(&self) -> usize {
        self.places()
    }

    fn read(&self, place: usize) -> Option<i16> {
        self.bytes
            .get(place / 2)
            .copied()
            .map(|byte| self.shift.worth(Half::of(byte, place)))
    }

    fn holds(&self, place: usize, value: i16) -> Result<(), StoreFault> {
        self.half_for(place, value)?;
        Ok(())
    }

    fn write(&mut self, place: usize, value: i16) -> Result<(), StoreFault>
        ensures written { Written
            (packed_meaning self.old.shift.bits self.old.bytes.items)
            place value result
            (packed_meaning self.new.shift.bits self.new.bytes.items) }
        ensures half { HalfWritten self.old.shift.bits self.old.bytes.items
            place value result self.new.bytes.items }
        ensures shift { self.new.shift ≡ self.old.shift }
        ensures untouched { Untouched result self.old self.new }
    {
        let half = self.half_for(place, value)?;
        self.put(place, half);
        Ok(())
    }
}

#[cfg(test)]
mod tests {
    use super::*;
    use std::test::Fail;

    #[test]
    fn keeps_halves_times_the_unit(rt: HostRuntime) -> Result<(), Fail> {
        let mut store = Packed::new(vec![in rt.alloc(); 0u8; 1]?, 2);
        assert_eq!(rt; store.write(0, 28), Ok(()));
        assert_eq!(rt; store.write(1, -32), Ok(()));
        assert_eq!(rt; store.write(0, 6), Err(StoreFault::Value));
        assert_eq!(rt; store.write(1, 32), Err(StoreFault::Value));
        assert_eq!(rt; store.read(0), Some(28));
        assert_eq!(rt; store.into_bytes().first().copied(), Some(0x87));
        Ok(())
    }
}
