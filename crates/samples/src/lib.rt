// A sample, the writer that puts its words into a lent buffer, and the reader that takes it back.
#![tactic(auto)]

pub mod edition;
pub mod reader;
pub mod sample;
pub mod writer;
