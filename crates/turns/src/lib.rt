// The loop that a program of records runs: bytes from standard input to a chip, a line for each record to standard output. What a record is
// and does, a format says.
#![tactic(auto)]

pub mod format;
pub mod serve;
