ghost use Rattle.std.specs.Prelude.{◌≡◌, ℕ, ◌+◌, ◌<◌, map, length, pos, ◌+ℤ◌, ◌-ℤ◌};
ghost use Rattle.bounds.specs.Kinds.{Running};
ghost use Rattle.rounding.specs.Numbers.{InRange, Weight};
ghost use Rattle.rows.specs.Sums.{column, spread, summed, row_bounds};

use crate::row::Row;
use bounds::kind::BoundKind;
use rounding::interval::Interval;

// The element, in the kind `K`, of a number that is known to within `distance`.
fn element<K: BoundKind>(number: i64, distance: u16) -> K::Element
    requires { InRange number }
    ensures { K.element result ≡ K.means.makes (number -ℤ pos distance) (number +ℤ pos distance) }
{
    K::make(Interval::around(number, i64::from(distance)))
}

impl Row<'_> {
    // The running sum `so_far` with one column more: the product of the weight `w` and the value `x`.
    fn with_column<K: BoundKind>(&self, so_far: K::Sum, w: i64, x: i64) -> K::Sum
        requires running { (n : ℕ) × (n < 64) × Running K.means n (K.sum so_far) }
        requires weight { Weight w }
        requires value { InRange x }
        ensures added { K.sum result
            ≡ column K.means self.now.weight_distance (K.sum so_far) w (spread self.now.value_distance x) }
        ensures running { (n : ℕ) → n < 64 → Running K.means n (K.sum so_far) → Running K.means (n + 1) (K.sum result) }
    {
        let weight = element::<K>(w, self.weight_distance);
        let value = element::<K>(x, self.value_distance);
        K::add(so_far, weight, value)
    }

    // The running sum of the row's products in the kind `K`.
    fn sum<K: BoundKind>(&self) -> K::Sum
        ensures value { K.sum result ≡ summed K.means self.now.weight_distance K.means.starts
            self.now.weights.now (map (spread self.now.value_distance) self.now.values.now) }
        ensures running { Running K.means (length self.now.weights.now) (K.sum result) }
    {
        let mut sum = K::start();
        for (&w, &x) in self.weights.iter().zip(self.values) {
            sum = self.with_column::<K>(sum, w, x);
        }
        sum
    }

    /// The row's bounds in the kind `K`.
    pub fn bounds<K: BoundKind>(&self) -> Interval
        ensures { result ≡ row_bounds K.means self.now.scale.bits self.now.weight_distance
            (map (spread self.now.value_distance) self.now.values.now) self.now.weights.now self.now.bias }
    {
        let (low, high) = K::close(self.sum::<K>(), self.bias, self.scale);
        Interval { low, high }
    }
}
