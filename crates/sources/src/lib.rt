// The two sources that a pile of adaptors stands on.
#![tactic(auto)]

pub mod range;
pub mod slice;
