//! The worked figures of the specification, by the definitions and by the code.
#![tactic(auto)]

pub mod worked;

ghost use Rattle.std.specs.Prelude.{◌≡◌};
ghost use Rattle.bounds.specs.Kinds.{WeightEnds, ActivationEnds};
ghost use Rattle.figures.specs.Figures.{Figures, Agrees, product_ends};

use bounds::centred::Centred;
use bounds::curve::Curve;
use bounds::ends::Ends;
use bounds::kind::BoundKind;
use rounding::interval::Interval;
use rounding::scale::Scale;
use stores::packed::Packed;
use worked::WorkedFigures;

// The ends of a weight times an activation.
fn product<K: BoundKind>(weight: Interval, activation: Interval) -> Interval
    requires weight { WeightEnds weight.low weight.high }
    requires activation { ActivationEnds activation.low activation.high }
    ensures { result ≡ product_ends K.means weight activation }
{
    let sum = K::add(K::start(), K::make(weight), K::make(activation));
    let (low, high) = K::close(sum, 0, Scale { bits: 0 });
    Interval { low, high }
}

/// The figures, which hold of the definitions, as the code works them.
#[tactic(auto, using(crate::proofs::Computed::worked_figures))]
pub fn figures() -> WorkedFigures
    ensures definitions { Figures }
    ensures code { Agrees result }
{
    let minus_three = Interval { low: -3, high: -3 };
    let weight = Interval { low: 2, high: 4 };
    let activation = Interval { low: -3, high: 1 };
    let about_zero = Interval { low: -1, high: 1 };
    let positive = Interval { low: 2, high: 3 };
    WorkedFigures {
        closed: Scale { bits: 1 }.outward(minus_three, 0),
        in_ends: product::<Ends>(weight, activation),
        in_centred: product::<Centred>(weight, activation),
        around_zero: product::<Ends>(about_zero, positive),
        clipped: Curve::Clip(-2, 5).apply(6),
        stepped: Curve::Step(-1, 1).apply(0),
        keeps_high: Packed::keeps(2, 28),
        keeps_low: Packed::keeps(2, -32),
        keeps_part: Packed::keeps(2, 6),
        keeps_past: Packed::keeps(2, 32),
    }
}

#[cfg(test)]
mod tests {
    use super::*;

    #[test]
    fn the_code_gives_the_figures(rt: HostRuntime) {
        let expected = WorkedFigures {
            closed: Interval { low: -2, high: -1 },
            in_ends: Interval { low: -12, high: 4 },
            in_centred: Interval { low: -12, high: 6 },
            around_zero: Interval { low: -3, high: 3 },
            clipped: 5,
            stepped: 1,
            keeps_high: true,
            keeps_low: true,
            keeps_part: false,
            keeps_past: false,
        };
        assert_eq!(rt; figures(), expected);
    }
}
