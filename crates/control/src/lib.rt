// What both editions of the chip share beside samples and queue: settings, Filter, error counters, flags, lost mark, a sample's
// header, the replies with their numbers, and a trigger's fate.
#![tactic(auto)]

pub mod answer;
pub mod control;
pub mod fate;
pub mod reply;
