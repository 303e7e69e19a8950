ghost use Rattle.std.specs.Prelude.{◌≡◌, ◌^◌, ◌*ℤ◌, pos};
ghost use Rattle.rounding.specs.Numbers.{InRange, FractionBits, Sized, RoundedDown, RoundedUp, per_unit, floor_over, ceiling_over};
ghost use Rattle.rounding.specs.Intervals.{Within, rounded_outward};

use crate::interval::Interval;

/// Numbers with `bits` fraction bits: 2^bits units make one.
#[derive(Clone, Copy, Debug, PartialEq, Eq, Hash)]
pub struct Scale {
    pub bits: u32,
    ghost few: { FractionBits bits },
}

impl Scale {
    // How many units so many ones come to.
    fn units(self, ones: i64) -> i64
        requires { InRange ones }
        ensures value { result ≡ ones *ℤ pos (per_unit self.bits) }
        ensures size { Sized (2 ^ 46) result }
    {
        ones * (1 << self.bits)
    }

    /// What `x` units come to, rounded down.
    pub fn floor_over(self, x: i64) -> i64
        ensures value { result ≡ floor_over x (per_unit self.bits) }
        ensures rounded { RoundedDown x (per_unit self.bits) result }
    {
        x >> self.bits
    }

    // What `x` units come to, rounded up.
    fn ceiling_over(self, x: i64) -> i64
        requires { Sized (2 ^ 61) x }
        ensures value { result ≡ ceiling_over x (per_unit self.bits) }
        ensures rounded { RoundedUp x (per_unit self.bits) result }
    {
        -self.floor_over(-x)
    }

    /// The ends of a running sum of units with a bias that counts ones: the low one rounded down, the high one
    /// rounded up.
    pub fn outward(self, ends: Interval, bias: i64) -> Interval
        requires ends { Within (2 ^ 60) ends }
        requires bias { InRange bias }
        ensures { result ≡ rounded_outward ends.low ends.high bias self.bits }
    {
        let offset = self.units(bias);
        let sum = ends
            + Interval {
                low: offset,
                high: offset,
            };
        Interval {
            low: self.floor_over(sum.low),
            high: self.ceiling_over(sum.high),
        }
    }
}

#[cfg(test)]
mod tests {
    use super::*;

    #[test]
    fn rounds_outward(rt: HostRuntime) {
        let halves = Scale { bits: 1 };
        let threes = Interval { low: -3, high: -3 };
        assert_eq!(rt; halves.outward(threes, 0), Interval { low: -2, high: -1 });
        let sixteenths = Scale { bits: 4 };
        let wide = Interval { low: -32, high: 33 };
        assert_eq!(rt; sixteenths.outward(wide, 5), Interval { low: 3, high: 8 });
    }
}
