ghost use Rattle.std.specs.Prelude.{◌≡◌, ℕ, ◌<◌, ◌≤◌};
ghost use Rattle.rounding.specs.Numbers.{InRange};
ghost use Rattle.bounds.specs.Kinds.{Meanings, KindLaws, Running, ActivationEnds, WeightElement, ActivationElement, closes};

use rounding::interval::Interval;
use rounding::scale::Scale;

/// A way to keep bounds: elements that enclose rounded numbers, and running sums of their products.
///
/// `means` says what elements and sums are worth, and `lawful` that the bounds which come of them hold. A kind serves
/// sums of up to 64 products of a weight and an activation, within their limits, and nothing beyond.
pub trait BoundKind {
    type Element: Copy;

    type Sum: Copy;

    const NUMBER: u8;

    ghost NUMBER: { ℕ };

    ghost means: { Meanings };

    ghost element: { Self.Element → means.Element };

    ghost sum: { Self.Sum → means.Sum };

    /// An element that encloses both ends.
    fn make(ends: Interval) -> Self::Element
        requires { ActivationEnds ends.low ends.high }
        ensures { element result ≡ means.makes ends.low ends.high };

    /// The sum of nothing.
    fn start() -> Self::Sum
        ensures { sum result ≡ means.starts };

    /// The running sum `so_far` and the product of a weight and an activation.
    fn add(so_far: Self::Sum, weight: Self::Element, activation: Self::Element) -> Self::Sum
        requires running { (n : ℕ) × (n < 64) × Running means n (sum so_far) }
        requires weight { WeightElement means (element weight) }
        requires activation { ActivationElement means (element activation) }
        ensures { sum result ≡ means.adds (sum so_far) (element weight) (element activation) };

    /// The low and the high of the row whose products come to `whole`, in whole units.
    fn close(whole: Self::Sum, bias: i64, scale: Scale) -> (i64, i64)
        requires running { (n : ℕ) × (n ≤ 64) × Running means n (sum whole) }
        requires bias { InRange bias }
        ensures { result ≡ closes means (sum whole) bias scale.bits };

    /// The kind's number, which is `NUMBER`.
    final fn kind_number() -> u8
        ensures { result ≡ means.number }
    {
        Self::NUMBER
    }

    ghost lawful: { KindLaws means };

    ghost numbered: { NUMBER ≡ means.number };
}
