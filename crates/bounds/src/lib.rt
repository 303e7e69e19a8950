// Bound kinds, which enclose sums of products of rounded numbers, and the curves between layers.
#![tactic(auto)]

pub mod centred;
pub mod curve;
pub mod ends;
pub mod kind;
