// A byte of a sample as a ten-bit word of the stream and back, a number from its bytes and back, and a choice of two values.
#![tactic(auto)]

pub mod byte;
pub mod choice;
pub mod number;
pub mod parity;
pub mod table;
pub mod word;
