ghost use Rattle.std.specs.Prelude.{Some, codes};
ghost use Rattle.std.specs.Fmt.{◌++?◌};

use std::fmt;

/// One thing for each of the five stores.
#[derive(Clone, Copy, Debug, PartialEq, Eq)]
pub struct Five<T> {
    pub plain: T,
    pub packed: T,
    pub over_plain: T,
    pub over_packed: T,
    pub twice: T,
}

impl<T: fmt::Display> fmt::Display for Five<T> {
    ghost output = { λ five. T.output five.plain ++? Some (codes " | ") ++? T.output five.packed
        ++? Some (codes " | ") ++? T.output five.over_plain ++? Some (codes " | ")
        ++? T.output five.over_packed ++? Some (codes " | ") ++? T.output five.twice };

    fn fmt<W: fmt::Write>(&self, f: &mut fmt::Formatter<W>) -> fmt::Result {
        let Five {
            plain,
            packed,
            over_plain,
            over_packed,
            twice,
        } = self;
        write!(
            f,
            "{plain} | {packed} | {over_plain} | {over_packed} | {twice}"
        )
    }
}
