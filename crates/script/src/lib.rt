// The bench's records and lines: twelve bytes to an operation, its step on the chip, and its answer as a line of text.
#![tactic(auto)]

pub mod block;
pub mod line;
pub mod operation;
