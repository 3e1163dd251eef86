// What the program `books` is told and what it shows: its words, its two files, and the page.
#![tactic(auto)]

mod grid;
pub mod messages;
pub mod options;
pub mod run;
mod text;
mod tsv;
