ghost use Rattle.std.specs.Prelude.{◌≡◌, Some};
ghost use Rattle.reading.specs.Columns.{name_of, most_of, optional};
ghost use Rattle.reading.specs.declared.failure.Failure.TheVariants.{Memory, Rejected};

use csv_rows::Fault;
use std::alloc::{AllocError, AllocFailed};
use std::fmt;

// A column of one of the two files.
#[derive(Clone, Copy)]
pub enum Column {
    Member,
    Machine,
    Start,
    Minutes,
    Rate,
    Cents,
}

impl Column {
    // The name that the header line has for it: a text too, since the fields there are compared with it.
    pub fn name(self) -> &'static str
        ensures value { result.now ≡ name_of self }
    {
        match self {
            Column::Member => "member",
            Column::Machine => "machine",
            Column::Start => "start",
            Column::Minutes => "minutes",
            Column::Rate => "rate",
            Column::Cents => "cents",
        }
    }

    // The largest number that may stand in it.
    pub fn most(self) -> u64
        ensures value { result ≡ most_of self }
    {
        match self {
            Column::Minutes | Column::Rate => 65535,
            Column::Member | Column::Machine | Column::Start | Column::Cents => u64::MAX,
        }
    }

    // Whether a number may be left out there.
    pub fn may_be_empty(self) -> bool
        ensures value { result ≡ optional self }
    {
        match self {
            Column::Start | Column::Rate => true,
            Column::Member | Column::Machine | Column::Minutes | Column::Cents => false,
        }
    }
}

impl fmt::Display for Column {
    ghost output = { λ c. Some (name_of c) };

    fn fmt<W: fmt::Write>(&self, f: &mut fmt::Formatter<W>) -> fmt::Result {
        f.write_str(self.name())
    }
}

// What is wrong with a line.
#[derive(Drop)]
pub enum Problem {
    Malformed(Fault),
    NoHeader,
    MissingColumn(Column),
    ColumnTwice(Column),
    FieldCount { found: usize, wanted: usize },
    NotText(Column),
    NoName(Column),
    NotNumber { column: Column, found: String },
    NoCredit(String),
    CreditTwice { member: String, first: usize },
}

// A line that is not taken, and what is wrong with it.
#[derive(Drop)]
pub struct Rejection {
    pub line: usize,
    pub problem: Problem,
}

// Why a file is not taken. Each layer's error has its own cases: a place in the text, a line, a file.
#[derive(Drop)]
pub enum Failure {
    Memory,
    Rejected(Rejection),
}

// All three by hand, since clauses name the error that comes out, and of a derived one nothing is known.
impl From<Rejection> for Failure {
    ghost from_gives = { λ e r. r ≡ Rejected e };

    fn from(e: Rejection) -> Failure {
        Failure::Rejected(e)
    }
}

impl From<AllocError> for Failure {
    ghost from_gives = { λ _ r. r ≡ Memory };

    fn from(_e: AllocError) -> Failure {
        Failure::Memory
    }
}

impl<T: Drop> From<AllocFailed<T>> for Failure {
    ghost from_gives = { λ _ r. r ≡ Memory };

    fn from(_e: AllocFailed<T>) -> Failure {
        Failure::Memory
    }
}
