// What is said in place of a page.
ghost use Rattle.std.specs.Prelude.{◌≡◌};
ghost use Rattle.frontend.specs.declared.messages.Message.TheVariants.{Memory, Words};

use crate::options::BadWords;
use ledger::shown::Count;
use reading::failure::{Problem, Rejection};
use std::alloc::AllocError;
use std::{fmt, io};

// Why there is no page. It has texts of its own, so that it may outlive the words that it tells of.
#[derive(Drop)]
pub enum Message {
    Memory,
    Words(BadWords),
    NoFile { file: String, error: io::Error },
    BadInput { file: String, rejection: Rejection },
}

// These two by hand: the library's derive would ask a Debug of all that a message holds, which nothing prints.
impl From<AllocError> for Message {
    ghost from_gives = { λ _ m. m ≡ Memory };

    fn from(_e: AllocError) -> Self {
        Message::Memory
    }
}

impl From<BadWords> for Message {
    ghost from_gives = { λ words m. m ≡ Words words };

    fn from(words: BadWords) -> Self {
        Message::Words(words)
    }
}

impl fmt::Display for Message {
    fn fmt<W: fmt::Write>(&self, f: &mut fmt::Formatter<W>) -> fmt::Result {
        match self {
            Message::Memory => f.write_str("there is not enough memory"),
            Message::Words(words) => write!(f, "{words}"),
            Message::NoFile { file, error } => write!(
                f,
                "{file}: found no file that can be read ({error}), wanted comma-separated text"
            ),
            Message::BadInput { file, rejection } => {
                let line = rejection.line;
                let told = Told(&rejection.problem);
                write!(f, "{file}, line {line}: {told}")
            }
        }
    }
}

// A problem in words: what was found, and what is wanted.
#[derive(Clone, Copy)]
struct Told<'a>(&'a Problem);

impl fmt::Display for Told<'_> {
    fn fmt<W: fmt::Write>(&self, f: &mut fmt::Formatter<W>) -> fmt::Result {
        match self.0 {
            Problem::Malformed(fault) => write!(f, "found {fault}, wanted comma-separated text"),
            Problem::NoHeader => f.write_str(
                "found no line, wanted a header line with the columns' names",
            ),
            Problem::MissingColumn(column) => write!(
                f,
                "found no column {column}, wanted one in the header line"
            ),
            Problem::ColumnTwice(column) => write!(
                f,
                "found the column {column} twice, wanted it once"
            ),
            Problem::FieldCount { found, wanted } => {
                let fields = Count(*found, "field");
                write!(f, "found {fields}, wanted {wanted}")
            }
            Problem::NotText(column) => write!(
                f,
                "found bytes that are no UTF-8 text in column {column}, wanted text"
            ),
            Problem::NoName(column) => write!(f, "found nothing in column {column}, wanted a name"),
            Problem::NotNumber { column, found } => {
                let most = column.most();
                let or = if column.may_be_empty() {
                    ", or nothing"
                } else {
                    ""
                };
                write!(
                    f,
                    "found {found:?} in column {column}, wanted a whole number from 0 to {most}{or}"
                )
            }
            Problem::NoCredit(member) => write!(
                f,
                "found member {member:?}, wanted one that has a line in the credits"
            ),
            Problem::CreditTwice { member, first } => write!(
                f,
                "found member {member:?} again, who has line {first} already, wanted each member once"
            ),
        }
    }
}
