ghost use Rattle.std.specs.Prelude.{◌≡◌, length, MatchOption, MatchResult};
ghost use Rattle.rows.specs.Claims.{RowSound, RowExact, RowCopied};
ghost use Rattle.rows.specs.Numbers.{limits, Counted, columns_of, AllFit, FirstOutside, Refused, Written, WrittenLimits, written_bounds};
ghost use Rattle.rows.specs.Reading.{IsRowOf, Reads};

use crate::fault::RowFault;
use crate::row::Row;
use bounds::kind::BoundKind;
use rounding::interval::Interval;
use rounding::scale::Scale;
use rounding::{RANGE, WEIGHTS};

// What the first four numbers may be: the fraction bits, the two distances and the bias.
const HEAD: [Interval; 4] = [
    Interval { low: 0, high: 16 },
    Interval {
        low: 0,
        high: 32_767,
    },
    Interval {
        low: 0,
        high: 65_535,
    },
    RANGE,
];

// Numbers of which there are as many as a row has: four, and 1 to 64 weights and as many values.
#[derive(Clone, Copy)]
struct Listed<'a> {
    numbers: &'a [i64],
    columns: usize,
    ghost counted: { Counted (length numbers.now) },
    ghost split: { columns ≡ columns_of (length numbers.now) },
}

impl<'a> Listed<'a> {
    // The numbers as those of a row, if there are as many.
    fn new(numbers: &'a [i64]) -> Option<Self>
        ensures { MatchOption result (Counted (length numbers.now) → ⊥) (λ listed. listed.numbers.now ≡ numbers.now) }
    {
        let columns = numbers.len().checked_sub(4)? / 2;
        if numbers.len() != 4 + 2 * columns || !(1..=64).contains(&columns) {
            return None;
        }
        Some(Listed { numbers, columns })
    }

    // The numbers that may stand at a place.
    fn limits_at(&self, place: usize) -> Interval
        ensures { result ≡ limits self.now.columns place }
    {
        let rest = if place < 4 + self.columns {
            WEIGHTS
        } else {
            RANGE
        };
        HEAD.get(place).copied().unwrap_or(rest)
    }

    // The place of the first number outside its limits.
    fn first_outside(&self) -> Option<usize>
        ensures { MatchOption result (AllFit self.now.numbers.now) (FirstOutside self.now.numbers.now) }
    {
        self.numbers
            .iter()
            .enumerate()
            .position(|(place, &number)| !self.limits_at(place).contains(number))
    }

    // The row that is written in the numbers.
    fn row(&self) -> Row<'a>
        requires { AllFit self.now.numbers.now }
        ensures { IsRowOf self.now.numbers.now result }
    {
        let [bits, weight_distance, value_distance, bias, rest @ ..] = self.numbers else {
            unreachable!()
        };
        let (weights, values) = rest.split_at(self.columns);
        Row {
            scale: Scale { bits: *bits as u32 },
            weight_distance: *weight_distance as u16,
            value_distance: *value_distance as u16,
            bias: *bias,
            weights,
            values,
        }
    }
}

/// Reads a row that is written in numbers: the fraction bits, how far a weight and how far a value may be off, the
/// bias, then the weights, then as many values.
impl<'a> TryFrom<&'a [i64]> for Row<'a> {
    type Error = RowFault;

    ghost try_from_gives = { λ numbers row. Reads numbers.now row };

    fn try_from(numbers: &'a [i64]) -> Result<Self, RowFault> {
        let listed = Listed::new(numbers).ok_or(RowFault::Count)?;
        match listed.first_outside() {
            Some(place) => Err(RowFault::Limit(place)),
            None => Ok(listed.row()),
        }
    }
}

/// The bounds, in the kind `K`, of the row that is written in these numbers. They hold in every copy of the row.
#[tactic(auto, using(crate::proofs::Parts::keeps_limits, crate::proofs::RowExact::row_exact))]
pub fn row_bounds<K: BoundKind>(numbers: &[i64]) -> Result<Interval, RowFault>
    ensures answer { MatchResult result
        (λ i. Written numbers.now × (i ≡ written_bounds K.means numbers.now)) (Refused numbers.now) }
    ensures limits { WrittenLimits }
    ensures sound { RowSound K.means }
    ensures exact { RowExact K.means }
    ensures copied { RowCopied }
{
    let row = Row::try_from(numbers)?;
    Ok(row.bounds::<K>())
}

#[cfg(test)]
mod tests {
    use super::*;
    use bounds::centred::Centred;
    use bounds::ends::Ends;
    use std::test::Fail;

    #[test]
    fn works_rows_in_both_kinds(rt: HostRuntime) -> Result<(), Fail> {
        let numbers = [0, 1, 2, 0, 3, -1];
        let ends = row_bounds::<Ends>(&numbers)?;
        assert_eq!(rt; ends, Interval { low: -12, high: 4 });
        let centred = row_bounds::<Centred>(&numbers)?;
        assert_eq!(rt; centred, Interval { low: -12, high: 6 });
        Ok(())
    }

    #[test]
    fn names_the_first_number_outside_its_limits(rt: HostRuntime) {
        let short = row_bounds::<Ends>(&[0, 1, 2, 0, 3]);
        assert_eq!(rt; short.err(), Some(RowFault::Count));
        let outside = row_bounds::<Ends>(&[17, 1, -2, 0, 3, 1]);
        assert_eq!(rt; outside.err(), Some(RowFault::Limit(0)));
    }
}
