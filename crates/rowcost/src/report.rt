ghost use Rattle.std.specs.Prelude.{◌≡◌, ◌<◌, ◌++◌, length, codes, IfOk, MatchResult, OnOk, Some};
ghost use Rattle.std.specs.Fmt.{signed_decimal};
ghost use Rattle.rowcost.specs.Distances.{both_bounds, with_distances};
ghost use Rattle.rows.specs.Numbers.{Refused, Written};

use crate::input::LineFault;
use bounds::centred::Centred;
use bounds::ends::Ends;
use rounding::interval::Interval;
use rows::fault::RowFault;
use rows::reading::row_bounds;
use std::alloc::{AllocError, Global};
use std::{fmt, io};

/// How far the weights and the values of a row may be off.
#[derive(Clone, Copy, Debug, Default, PartialEq, Eq)]
struct Distances {
    weights: i64,
    values: i64,
}

impl fmt::Display for Distances {
    ghost output = { λ d. Some (codes "weights within " ++ signed_decimal d.weights
        ++ codes ", values within " ++ signed_decimal d.values) };

    fn fmt<W: fmt::Write>(&self, f: &mut fmt::Formatter<W>) -> fmt::Result {
        let Distances { weights, values } = self;
        write!(f, "weights within {weights}, values within {values}")
    }
}

/// A row's bounds in the two kinds.
#[derive(Clone, Copy, Debug, PartialEq, Eq)]
struct BothKinds {
    ends: Interval,
    centred: Interval,
}

impl fmt::Display for BothKinds {
    ghost output = { λ b. Some (codes "ends " ++ signed_decimal b.ends.low ++ codes ".." ++ signed_decimal b.ends.high
        ++ codes ", centred " ++ signed_decimal b.centred.low ++ codes ".." ++ signed_decimal b.centred.high) };

    fn fmt<W: fmt::Write>(&self, f: &mut fmt::Formatter<W>) -> fmt::Result {
        let BothKinds { ends, centred } = self;
        write!(f, "ends {ends}, centred {centred}")
    }
}

/// Works the row that is written in these numbers.
fn both_kinds(numbers: &[i64]) -> Result<BothKinds, RowFault>
    ensures written { OnOk result (Written numbers.now) }
    ensures bounds { MatchResult result (λ b. b ≡ both_bounds numbers.now) (Refused numbers.now) }
{
    Ok(BothKinds {
        ends: row_bounds::<Ends>(numbers)?,
        centred: row_bounds::<Centred>(numbers)?,
    })
}

/// Where a row's numbers have the distance of its weights.
const WEIGHTS: usize = 1;

/// Where a row's numbers have the distance of its values.
const VALUES: usize = 2;

/// The numbers of a row with these distances in the place of its own.
fn with_distances(
    alloc: Global,
    numbers: &[i64],
    distances: Distances,
) -> Result<Vec<i64>, AllocError>
    ensures { IfOk result (λ row.
        2 < length numbers.now → row.items ≡ with_distances numbers.now distances) }
{
    let mut row = numbers.to_vec(alloc)?;
    if row.len() > VALUES {
        row[WEIGHTS] = distances.weights;
        row[VALUES] = distances.values;
    }
    Ok(row)
}

/// Works a row with these distances in the place of its own.
fn cost(alloc: Global, numbers: &[i64], distances: Distances) -> Result<BothKinds, LineFault>
    ensures { IfOk result (λ b.
        2 < length numbers.now → b ≡ both_bounds (with_distances numbers.now distances)) }
{
    let row = with_distances(alloc, numbers, distances)?;
    Ok(both_kinds(&row)?)
}

/// Prints what the line with this number comes to.
#[derive(Drop)]
pub(crate) struct Report<'a, R> {
    pub(crate) rt: &'a R,
    pub(crate) line: usize,
}

impl<R: Print + AllocGlobal> Report<'_, R> {
    /// Prints why the line is no row.
    pub(crate) fn refuse(&self, fault: LineFault) -> io::Result<()> {
        println!(self.rt; "line {}: no row: {fault}", self.line)
    }

    /// Prints the bounds of a row with these distances.
    fn show(&self, numbers: &[i64], distances: Distances) -> io::Result<()> {
        match cost(self.rt.alloc(), numbers, distances) {
            Ok(bounds) => println!(self.rt; "  {distances}: {bounds}"),
            Err(fault) => self.refuse(fault),
        }
    }

    /// Prints what the row that is written in these numbers comes to: with no distance, with each
    /// that it has, and with both.
    pub(crate) fn describe(&self, numbers: &[i64]) -> io::Result<()> {
        if let Err(fault) = both_kinds(numbers) {
            return self.refuse(fault.into());
        }
        let &[bits, weights, values, bias, ref products @ ..] = numbers else {
            unreachable!()
        };
        let columns = products.len() / 2;
        println!(self.rt;
            "line {}: columns {columns}, F {bits}, bias {bias}",
            self.line
        )?;
        let none = Distances::default();
        let own = Distances { weights, values };
        let cases = [
            none,
            Distances { values: 0, ..own },
            Distances { weights: 0, ..own },
            own,
        ];
        for (i, distances) in cases.iter().enumerate() {
            if cases.iter().position(|case| case == distances) == Some(i) {
                self.show(numbers, *distances)?;
            }
        }
        Ok(())
    }
}
