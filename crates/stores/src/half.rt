ghost use Rattle.std.specs.Prelude.{◌≡◌, ◌<◌, pos, neg_ℤ, MatchOption};
ghost use Rattle.rounding.specs.Numbers.{Between};
ghost use Rattle.stores.specs.Halves.{half_at, with_half};
ghost use Rattle.stores.specs.Packed.{signed_half};

// Half a byte, the bits of one place of a packed store.
#[derive(Clone, Copy, Debug, PartialEq, Eq, Hash)]
pub(crate) struct Half {
    bits: u8,
    ghost four_bits: { bits < 16 },
}

impl Half {
    // The half of a byte that a place has: the lower one at an even place.
    pub(crate) fn of(byte: u8, place: usize) -> Half
        ensures { result.bits ≡ half_at byte place }
    {
        let bits = if place % 2 == 0 { byte % 16 } else { byte / 16 };
        Half { bits }
    }

    // The half that has a number, if any has.
    pub(crate) fn with_number(number: i16) -> Option<Half>
        ensures { MatchOption result
            (¬ Between (neg_ℤ (pos 8)) (pos 7) number)
            (λ h. (signed_half h.bits ≡ number) × Between (neg_ℤ (pos 8)) (pos 7) number) }
    {
        if !(-8..=7).contains(&number) {
            return None;
        }
        let bits = number.rem_euclid(16) as u8;
        Some(Half { bits })
    }

    // The half's number in two's complement.
    pub(crate) fn number(self) -> i16
        ensures is { result ≡ signed_half self.bits }
        ensures four_bits { Between (neg_ℤ (pos 8)) (pos 7) result }
    {
        let n = i16::from(self.bits);
        if self.bits < 8 { n } else { n - 16 }
    }

    // The byte with this half at that place, and the other half as it was.
    pub(crate) fn put_into(self, byte: u8, place: usize) -> u8
        ensures { result ≡ with_half byte place self.bits }
    {
        if place % 2 == 0 {
            byte / 16 * 16 + self.bits
        } else {
            self.bits * 16 + byte % 16
        }
    }
}
