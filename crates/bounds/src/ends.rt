ghost use Rattle.std.specs.Prelude.{◌≡◌, ℤ, ◌^◌, ◌*ℤ◌, refl};
ghost use Rattle.bounds.specs.Ends.{ends_meanings, least_of, greatest_of};
ghost use Rattle.bounds.specs.Kinds.{weight_reach, activation_reach};
ghost use Rattle.rounding.specs.Intervals.{Within};
ghost use Rattle.rounding.specs.Numbers.{Sized};
ghost use Rattle.bounds.specs.EndsLaws.{ends_laws};

use crate::kind::BoundKind;
use rounding::interval::Interval;
use rounding::scale::Scale;

/// Bound kind 0: elements and sums are kept as their two ends.
pub struct Ends;

// The four products of an end of one interval and an end of another.
#[derive(Clone, Copy)]
struct Corners {
    low_low: i64,
    low_high: i64,
    high_low: i64,
    high_high: i64,
}

impl Corners {
    // The products of the ends of a weight and of an activation.
    fn of(weight: Interval, activation: Interval) -> Self
        requires weight { Within weight_reach weight }
        requires activation { Within activation_reach activation }
        ensures low_low { result.low_low ≡ weight.low *ℤ activation.low }
        ensures low_high { result.low_high ≡ weight.low *ℤ activation.high }
        ensures high_low { result.high_low ≡ weight.high *ℤ activation.low }
        ensures high_high { result.high_high ≡ weight.high *ℤ activation.high }
        ensures sizes { Sized (2 ^ 58) result.low_low × Sized (2 ^ 58) result.low_high
            × Sized (2 ^ 58) result.high_low × Sized (2 ^ 58) result.high_high }
    {
        Corners {
            low_low: weight.low * activation.low,
            low_high: weight.low * activation.high,
            high_low: weight.high * activation.low,
            high_high: weight.high * activation.high,
        }
    }

    // The one that is left of the four where `better` chooses between two.
    fn best<F: Fn(i64, i64) -> i64>(self, better: F) -> i64
        requires { F.IsAlwaysCallable better }
        ensures { (low high : ℤ) × F.post better self.low_low self.low_high low
            × F.post better self.high_low self.high_high high × F.post better low high result }
    {
        let low = better(self.low_low, self.low_high);
        let high = better(self.high_low, self.high_high);
        better(low, high)
    }

    // From the least to the greatest of the four.
    fn hull(self) -> Interval
        ensures low { result.low ≡ least_of self.low_low self.low_high self.high_low self.high_high }
        ensures high { result.high ≡ greatest_of self.low_low self.low_high self.high_low self.high_high }
    {
        Interval {
            low: self.best(i64::min),
            high: self.best(i64::max),
        }
    }
}

impl BoundKind for Ends {
    type Element = Interval;

    type Sum = Interval;

    const NUMBER: u8 = 0;

    ghost NUMBER = { 0 };

    ghost means = { ends_meanings };

    ghost element = { λ u. u };

    ghost sum = { λ s. s };

    ghost lawful = { ends_laws };

    ghost numbered = { refl };

    fn make(ends: Interval) -> Interval {
        ends
    }

    fn start() -> Interval {
        Interval { low: 0, high: 0 }
    }

    fn add(so_far: Interval, weight: Interval, activation: Interval) -> Interval {
        so_far + Corners::of(weight, activation).hull()
    }

    fn close(whole: Interval, bias: i64, scale: Scale) -> (i64, i64) {
        let Interval { low, high } = scale.outward(whole, bias);
        (low, high)
    }
}
