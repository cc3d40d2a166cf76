// The MultiKron II's test records and lines: sixteen bytes to an operation, its step on the chip, and its answer as a line of text.
#![tactic(auto)]

pub mod block;
mod line;
pub mod operation;
