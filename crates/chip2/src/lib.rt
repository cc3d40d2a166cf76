// The MultiKron II in normal mode: one record by value, and every operation on it.
#![tactic(auto)]

pub mod chip2;
pub mod place;
