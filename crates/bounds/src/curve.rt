ghost use Rattle.std.specs.Prelude.{◌≡◌, pos, ◌≤ℤ◌, ◌↔◌, IsTrue};
ghost use Rattle.bounds.specs.Curves.{FourCurves, Named, NamedBy, curve_at};
ghost use Rattle.rounding.specs.Numbers.{InRange};

use rounding::in_range;
use thiserror::Error;

/// The numbers that a curve is written in.
#[derive(Clone, Copy, Debug, PartialEq, Eq, Hash)]
pub struct CurveNumbers {
    pub code: i64,
    pub p: i64,
    pub r: i64,
}

/// Numbers that are no curve's.
#[derive(Clone, Copy, Debug, PartialEq, Eq, Hash, Error)]
#[error("no curve has the code {} with {} and {}", .numbers.code, .numbers.p, .numbers.r)]
pub struct NoCurve {
    pub numbers: CurveNumbers,
}

/// What a layer does to its rows before the next layer takes them in. None of the four ever falls.
#[derive(Clone, Copy, Debug, PartialEq, Eq, Hash)]
pub enum Curve {
    Identity,
    /// the larger of the number and 0
    Relu,
    /// into p..r
    Clip(i64, i64),
    /// p below 0, and r from 0 on
    Step(i64, i64),
}

impl CurveNumbers {
    // Whether p and r are those of a curve that has none.
    fn unused(self) -> bool
        ensures { IsTrue result ↔ ((self.p ≡ pos 0) × (self.r ≡ pos 0)) }
    {
        self.p == 0 && self.r == 0
    }

    // Whether p and r are in range and in order.
    fn ordered(self) -> bool
        ensures { IsTrue result ↔ (InRange self.p × InRange self.r × (self.p ≤ℤ self.r)) }
    {
        in_range(self.p) && in_range(self.r) && self.p <= self.r
    }

    // The curve that has these numbers, if any has.
    fn curve(self) -> Option<Curve>
        ensures { Named self result }
    {
        match self.code {
            0 => self.unused().then_some(Curve::Identity),
            1 => self.unused().then_some(Curve::Relu),
            2 => self.ordered().then_some(Curve::Clip(self.p, self.r)),
            3 => self.ordered().then_some(Curve::Step(self.p, self.r)),
            _ => None,
        }
    }
}

/// The curve that has the numbers, where they keep the rules. Every curve that keeps them keeps the laws of a curve.
impl TryFrom<CurveNumbers> for Curve {
    type Error = NoCurve;

    ghost try_from_gives = { λ numbers result. NamedBy numbers result × FourCurves };

    #[tactic(auto, using(crate::proofs::CurveLaws::four_curves))]
    fn try_from(numbers: CurveNumbers) -> Result<Self, NoCurve> {
        numbers.curve().ok_or(NoCurve { numbers })
    }
}

impl Curve {
    /// What the curve makes of the whole number `m`.
    #[tactic(auto, using(crate::proofs::CurveLaws::four_curves))]
    pub fn apply(self, m: i64) -> i64
        ensures value { result ≡ curve_at self 1 m }
        ensures laws { FourCurves }
    {
        match self {
            Curve::Identity => m,
            Curve::Relu => m.max(0),
            Curve::Clip(p, r) => m.max(p).min(r),
            Curve::Step(p, r) => { if m < 0 { p } else { r } }
        }
    }
}

#[cfg(test)]
mod tests {
    use super::*;

    fn is_curve(code: i64, p: i64, r: i64) -> bool {
        Curve::try_from(CurveNumbers { code, p, r }).is_ok()
    }

    #[test]
    fn codes_name_curves(rt: HostRuntime) {
        assert!(rt; is_curve(0, 0, 0));
        assert!(rt; !is_curve(1, 0, 1));
        assert!(rt; !is_curve(2, 5, -2));
        assert!(rt; is_curve(3, -1_073_741_823, 1_073_741_823));
        assert!(rt; !is_curve(3, -1_073_741_824, 0));
        assert!(rt; !is_curve(4, 0, 0));
    }

    #[test]
    fn curves_apply(rt: HostRuntime) {
        assert_eq!(rt; Curve::Relu.apply(-7), 0);
        assert_eq!(rt; Curve::Clip(-2, 5).apply(6), 5);
        assert_eq!(rt; Curve::Step(-1, 1).apply(-1), -1);
        assert_eq!(rt; Curve::Step(-1, 1).apply(0), 1);
    }
}
