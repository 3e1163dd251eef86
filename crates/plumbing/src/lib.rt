// What every producer, cursor and folder promises, and the calls over any of them.
#![tactic(auto)]

pub mod board;
pub mod calls;
pub mod cursor;
pub mod fold;
pub mod folder;
pub mod fuse;
pub mod producer;
pub mod refusal;
