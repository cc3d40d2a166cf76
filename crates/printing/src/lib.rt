// Lines for a person to read, for the programs whose output is compared with a stored one.
#![tactic(auto)]

pub mod print;
