// Sorts a log's records out to the members' accounts, and bills every member.
#![tactic(auto)]

pub mod accounts;
pub mod books;
pub mod files;
pub mod shown;
