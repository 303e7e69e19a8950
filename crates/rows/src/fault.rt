use thiserror::Error;

/// Why a list of numbers is no row.
#[derive(Clone, Copy, Debug, PartialEq, Eq, Hash, Error)]
pub enum RowFault {
    /// there are not four numbers, and 1 to 64 weights and as many values
    #[error("it wants F, two distances, the bias, then 1 to 64 weights and as many values")]
    Count,
    /// the number at this place is the first outside its limits
    #[error("number {} is outside its limits", .0.saturating_add(1))]
    Limit(usize),
}
