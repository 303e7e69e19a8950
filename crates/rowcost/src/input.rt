use rows::fault::RowFault;
use std::alloc::{AllocError, Global};
use thiserror::Error;

/// Why a line is no row.
#[derive(Debug, Drop, Error)]
pub enum LineFault {
    /// This word, counted from 1, is no number.
    #[error("word {0} is no number")]
    Word(usize),
    #[error(transparent)]
    Row(#[from] RowFault),
    #[error("no memory is left")]
    Memory(#[from(alloc)] AllocError),
}

/// The numbers of a line, which white space separates.
pub(crate) fn numbers(alloc: Global, line: &str) -> Result<Vec<i64>, LineFault> {
    line.split_ascii_whitespace()
        .enumerate()
        .map(|(i, word)| {
            word.parse()
                .map_err(|_| LineFault::Word(i.saturating_add(1)))
        })
        .try_collect(alloc)
}
