//! Whole numbers, their limits, and division by a power of two rounded outward.
#![tactic(auto)]

pub mod interval;
pub mod scale;

ghost use Rattle.std.specs.Prelude.{◌↔◌, IsTrue};
ghost use Rattle.rounding.specs.Numbers.{InRange};

use interval::Interval;

/// The limit of an input, a bias, a curve's number and a recorded bound, to either side of 0.
pub const LARGEST: i64 = 1_073_741_823;

/// The numbers within that limit.
pub const RANGE: Interval = Interval {
    low: -LARGEST,
    high: LARGEST,
};

/// The numbers that a weight can be: those of 16 bits.
pub const WEIGHTS: Interval = Interval {
    low: -32_768,
    high: 32_767,
};

/// Whether `x` is within the limit.
pub fn in_range(x: i64) -> bool
    ensures { IsTrue result ↔ InRange x }
{
    RANGE.contains(x)
}

#[cfg(test)]
mod tests {
    use super::*;

    #[test]
    fn the_largest_is_in_range(rt: HostRuntime) {
        assert!(rt; in_range(LARGEST));
        assert!(rt; in_range(-LARGEST));
        assert!(rt; !in_range(LARGEST + 1));
        assert!(rt; !in_range(-LARGEST - 1));
    }
}
