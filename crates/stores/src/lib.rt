// Weight stores: the trait with its contracts, plain words, packed halves, and an overlay on any
// store.
#![tactic(auto)]

pub mod compare;
pub mod fault;
mod half;
pub mod overlay;
pub mod packed;
mod patch;
pub mod plain;
mod shift;
pub mod store;
mod table;
