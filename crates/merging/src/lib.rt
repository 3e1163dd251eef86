// Two producers as one.
#![tactic(auto)]

pub mod chain;
pub mod interleave;
mod turns;
