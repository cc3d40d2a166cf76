// The sixteen counters with their shadows, and the switches that say which of them an event is due to.
#![tactic(auto)]

pub mod bank;
pub mod switches;
