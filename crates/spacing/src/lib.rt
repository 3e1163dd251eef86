// A producer with separators.
#![tactic(auto)]

pub mod intersperse;
