// A producer's items in runs of one length.
#![tactic(auto)]

pub mod chunks;
pub mod runs;
pub mod step_by;
