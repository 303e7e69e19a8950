ghost use Rattle.std.specs.Prelude.{◌≡◌, ◌*◌, ◌^◌, ◌+ℤ◌, ◌-ℤ◌, ◌*ℤ◌, refl};
ghost use Rattle.bounds.specs.Balls.{Parts, sum_of};
ghost use Rattle.bounds.specs.Centred.{centred_meanings, abs, middle};
ghost use Rattle.bounds.specs.Kinds.{ActivationEnds, weight_reach, activation_reach};
ghost use Rattle.rounding.specs.Numbers.{Between, Sized};
ghost use Rattle.bounds.specs.CentredLaws.{centred_laws};

use crate::kind::BoundKind;
use rounding::interval::Interval;
use rounding::scale::Scale;
use std::ops::Add;

/// The whole numbers within `radius` of `centre`.
#[derive(Clone, Copy, Debug, PartialEq, Eq, Hash)]
pub struct Ball {
    pub centre: i64,
    pub radius: i64,
}

impl Ball {
    // The first and the last of the numbers.
    fn ends(self) -> Interval
        requires { Parts (2 ^ 60) (2 ^ 60) self }
        ensures low { result.low ≡ self.centre -ℤ self.radius }
        ensures high { result.high ≡ self.centre +ℤ self.radius }
    {
        Interval::around(self.centre, self.radius)
    }
}

/// Adds the centres, and the radii.
impl Add for Ball {
    type Output = Ball;

    ghost can_add = { λ one other. Parts (2 ^ 60) (2 ^ 60) one × Parts (2 ^ 60) (2 ^ 60) other };

    ghost add_gives = { λ one other sum. sum ≡ sum_of one other };

    fn add(self, other: Ball) -> Ball {
        Ball {
            centre: self.centre + other.centre,
            radius: self.radius + other.radius,
        }
    }
}

/// Bound kind 1: elements and sums are kept as a centre and a radius.
pub struct Centred;

// The middle of an activation's ends, rounded down.
fn midpoint(ends: Interval) -> i64
    requires { ActivationEnds ends.low ends.high }
    ensures value { result ≡ middle ends.low ends.high }
    ensures between { Between ends.low ends.high result }
{
    (ends.low + ends.high) >> 1
}

// The products that make up the product of two balls.
#[derive(Clone, Copy)]
struct Terms {
    // the centres
    centres: i64,
    // the size of the first centre and the second radius
    first: i64,
    // the size of the second centre and the first radius
    second: i64,
    // the radii
    radii: i64,
}

impl Terms {
    // The products of the parts of a weight and of an activation.
    fn of(weight: Ball, activation: Ball) -> Self
        requires weight { Parts weight_reach (2 * weight_reach) weight }
        requires activation { Parts activation_reach (2 * activation_reach) activation }
        ensures centres { result.centres ≡ weight.centre *ℤ activation.centre }
        ensures first { result.first ≡ abs weight.centre *ℤ activation.radius }
        ensures second { result.second ≡ abs activation.centre *ℤ weight.radius }
        ensures radii { result.radii ≡ weight.radius *ℤ activation.radius }
        ensures sizes { Sized (2 ^ 58) result.centres × Sized (2 ^ 58) result.first
            × Sized (2 ^ 58) result.second × Sized (2 ^ 58) result.radii }
    {
        Terms {
            centres: weight.centre * activation.centre,
            first: weight.centre.abs() * activation.radius,
            second: activation.centre.abs() * weight.radius,
            radii: weight.radius * activation.radius,
        }
    }

    // The ball about the product of the centres that takes in all of the product.
    fn joined(self) -> Ball
        requires { Sized (2 ^ 58) self.first × Sized (2 ^ 58) self.second × Sized (2 ^ 58) self.radii }
        ensures centre { result.centre ≡ self.centres }
        ensures radius { result.radius ≡ self.first +ℤ self.second +ℤ self.radii }
    {
        Ball {
            centre: self.centres,
            radius: self.first + self.second + self.radii,
        }
    }
}

impl BoundKind for Centred {
    type Element = Ball;

    type Sum = Ball;

    const NUMBER: u8 = 1;

    ghost NUMBER = { 1 };

    ghost means = { centred_meanings };

    ghost element = { λ u. u };

    ghost sum = { λ s. s };

    ghost lawful = { centred_laws };

    ghost numbered = { refl };

    fn make(ends: Interval) -> Ball {
        let centre = midpoint(ends);
        Ball {
            centre,
            radius: ends.high - centre,
        }
    }

    fn start() -> Ball {
        Ball {
            centre: 0,
            radius: 0,
        }
    }

    fn add(so_far: Ball, weight: Ball, activation: Ball) -> Ball {
        so_far + Terms::of(weight, activation).joined()
    }

    fn close(whole: Ball, bias: i64, scale: Scale) -> (i64, i64) {
        let Interval { low, high } = scale.outward(whole.ends(), bias);
        (low, high)
    }
}
