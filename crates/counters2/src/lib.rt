// The MultiKron II's counters: three control registers of sixteen fields, pairs, and what is due to which counter.
#![tactic(auto)]

pub mod clocks;
pub mod counts;
pub mod fields;
