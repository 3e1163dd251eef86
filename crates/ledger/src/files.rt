// From the bytes of the two files to the books.
ghost use Rattle.std.specs.Prelude.{◌≡◌, MatchResult};
ghost use Rattle.ledger.specs.declared.files.BadFile.TheVariants.{Memory};
ghost use Rattle.ledger.specs.Files.{BooksOf, Refused, bad_file};

use crate::books::{Books, settle_all};
use reading::credits::read_credits;
use reading::failure::{Failure, Rejection};
use reading::log::read_log;
use std::alloc::{AllocError, Global};

// One of the two files.
#[derive(Clone, Copy, PartialEq, Eq, Debug)]
pub enum Input {
    Usage,
    Credits,
}

// Which of the two files is not taken, and why.
#[derive(Drop)]
pub enum BadFile {
    Memory,
    Rejected { input: Input, rejection: Rejection },
}

// By hand, since clauses name the error that comes out, and of a derived one nothing is known.
impl From<AllocError> for BadFile {
    ghost from_gives = { λ _ r. r ≡ Memory };

    fn from(_e: AllocError) -> BadFile {
        BadFile::Memory
    }
}

impl BadFile {
    fn of(input: Input, failure: Failure) -> BadFile
        ensures { result ≡ bad_file input failure }
    {
        match failure {
            Failure::Memory => BadFile::Memory,
            Failure::Rejected(rejection) => BadFile::Rejected { input, rejection },
        }
    }
}

pub fn settle_files(heap: Global, usage: &[u8], credits: &[u8]) -> Result<Books, BadFile>
    ensures { MatchResult result (BooksOf usage.now credits.now) (Refused usage.now credits.now) }
{
    let payers = read_credits(heap, credits).map_err(|e| BadFile::of(Input::Credits, e))?;
    let log = read_log(heap, usage, &payers).map_err(|e| BadFile::of(Input::Usage, e))?;
    Ok(settle_all(heap, payers.into_list(), log)?)
}
