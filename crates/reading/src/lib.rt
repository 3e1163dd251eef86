// Reads the two files of the books: the usage log and the members' credits.
#![tactic(auto)]

pub mod credits;
pub mod failure;
pub mod log;
pub mod names;
mod number;
mod table;
