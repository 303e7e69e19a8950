// One row of a layer by itself: its bounds in any bound kind, and what they stand for.
#![tactic(auto)]

pub mod fault;
pub mod reading;
pub mod row;
pub mod work;
