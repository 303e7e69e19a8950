ghost use Rattle.std.specs.Prelude.{◌≡◌, ◌^◌, ◌+ℤ◌, ◌-ℤ◌, ◌↔◌, ◌++◌, IsTrue, Some, codes};
ghost use Rattle.std.specs.Fmt.{signed_decimal};
ghost use Rattle.rounding.specs.Numbers.{Between, Sized};
ghost use Rattle.rounding.specs.Intervals.{Within, sum_of};

use std::fmt;
use std::ops::Add;

/// The whole numbers from `low` to `high`, both included.
#[derive(Clone, Copy, Debug, PartialEq, Eq, Hash)]
pub struct Interval {
    pub low: i64,
    pub high: i64,
}

impl Interval {
    /// The numbers that are at most `radius` away from `centre`.
    pub fn around(centre: i64, radius: i64) -> Self
        requires centre { Sized (2 ^ 60) centre }
        requires radius { Sized (2 ^ 60) radius }
        ensures low { result.low ≡ centre -ℤ radius }
        ensures high { result.high ≡ centre +ℤ radius }
    {
        Interval {
            low: centre - radius,
            high: centre + radius,
        }
    }

    /// Whether `x` is one of the numbers.
    pub fn contains(self, x: i64) -> bool
        ensures { IsTrue result ↔ Between self.low self.high x }
    {
        self.low <= x && x <= self.high
    }
}

impl fmt::Display for Interval {
    ghost output = { λ i. Some (signed_decimal i.low ++ codes ".." ++ signed_decimal i.high) };

    fn fmt<W: fmt::Write>(&self, f: &mut fmt::Formatter<W>) -> fmt::Result {
        let Interval { low, high } = self;
        write!(f, "{low}..{high}")
    }
}

/// Adds end by end.
impl Add for Interval {
    type Output = Interval;

    ghost can_add = { λ one other. Within (2 ^ 60) one × Within (2 ^ 60) other };

    ghost add_gives = { λ one other sum. sum ≡ sum_of one other };

    fn add(self, other: Interval) -> Interval {
        Interval {
            low: self.low + other.low,
            high: self.high + other.high,
        }
    }
}
