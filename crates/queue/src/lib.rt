// The queue: eight places for held samples, the first at place 0, and the word that is next.
#![tactic(auto)]

pub mod places;
pub mod queue;
