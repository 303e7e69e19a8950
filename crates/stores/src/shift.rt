ghost use Rattle.std.specs.Prelude.{◌≡◌, ◌^◌, ◌≤◌, min, pos, neg_ℤ, is_some, IfSome};
ghost use Rattle.rounding.specs.Numbers.{Between};
ghost use Rattle.stores.specs.Packed.{most_shift, packable, scaled, signed_half};

use crate::half::Half;

/// The largest shift of a packed store.
pub const MOST_SHIFT: u32 = 12;

// The shift of a packed store: a half is worth its number times two to the shift.
#[derive(Clone, Copy, Debug, PartialEq, Eq, Hash)]
pub(crate) struct Shift {
    bits: u32,
    ghost small: { bits ≤ most_shift },
}

impl Shift {
    // A shift of so many bits. One larger than the largest counts as that.
    pub(crate) fn at_most(bits: u32) -> Shift
        ensures { result.bits ≡ min bits most_shift }
    {
        Shift {
            bits: bits.min(MOST_SHIFT),
        }
    }

    // Two to the shift.
    #[tactic(auto, using(crate::specs::HalvesLemmas::unit_small))]
    fn unit(self) -> i16
        ensures { result ≡ pos (2 ^ self.bits) }
    {
        1 << self.bits
    }

    // A half's number times two to the shift.
    fn times_unit(self, number: i16) -> i16
        requires { Between (neg_ℤ (pos 8)) (pos 7) number }
        ensures { result ≡ scaled self.bits number }
    {
        self.unit() * number
    }

    // What a half is worth.
    pub(crate) fn worth(self, half: Half) -> i16
        ensures { result ≡ scaled self.bits (signed_half half.bits) }
    {
        self.times_unit(half.number())
    }

    // The half that is worth a value, if any is.
    pub(crate) fn half_worth(self, value: i16) -> Option<Half>
        ensures keeps { is_some result ≡ packable self.bits value }
        ensures worth { IfSome result (λ h. scaled self.bits (signed_half h.bits) ≡ value) }
    {
        let number = value >> self.bits;
        let half = Half::with_number(number)?;
        (self.times_unit(number) == value).then_some(half)
    }
}
