// The MultiKron chip in normal mode: one record by value, and every operation on it.
#![tactic(auto)]

pub mod chip;
pub mod line;
pub mod place;
