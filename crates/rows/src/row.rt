ghost use Rattle.std.specs.Prelude.{◌≡◌, ℕ, ◌<◌, ◌≤◌, length, pos, slice_index_or};
ghost use Rattle.rounding.specs.Numbers.{InRange, Weight};

use rounding::scale::Scale;

/// A row with the values that its weights are multiplied by.
#[derive(Clone, Copy)]
pub struct Row<'a> {
    pub scale: Scale,
    /// how far a weight may be off
    pub weight_distance: u16,
    /// how far a value may be off
    pub value_distance: u16,
    pub bias: i64,
    pub weights: &'a [i64],
    pub values: &'a [i64],
    ghost near: { weight_distance ≤ 32767 },
    ghost bias_fits: { InRange bias },
    ghost few: { length weights.now ≤ 64 },
    ghost level: { length values.now ≡ length weights.now },
    ghost weights_fit: { (i : ℕ) → i < length weights.now → Weight (slice_index_or weights.now i (pos 0)) },
    ghost values_fit: { (i : ℕ) → i < length values.now → InRange (slice_index_or values.now i (pos 0)) },
}
