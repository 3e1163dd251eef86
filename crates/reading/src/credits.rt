ghost use Rattle.std.specs.Prelude.{◌≡◌, [], MatchResult, string_bytes};
ghost use Rattle.reading.specs.Books.{CreditsOf};
ghost use Rattle.reading.specs.Tables.{OnLine};
ghost use Rattle.reading.specs.Parts.{CreditAdded};

use crate::failure::{Column, Failure, Problem, Rejection};
use crate::names::{Named, Names};
use crate::table::{Table, place};
use std::alloc::Global;

// What a member may spend, and the line that says so.
#[derive(Clone, Copy)]
pub struct Credit {
    pub cents: u64,
    pub line: usize,
}

// A member, and the member's credit.
#[derive(Drop)]
pub struct Payer {
    pub member: String,
    pub credit: Credit,
}

impl Named for Payer {
    ghost name = { λ p. string_bytes p.member };

    fn name(&self) -> &str {
        self.member.as_str()
    }
}

// Adds what a line says of a member who has no line yet.
fn add(payers: &mut Names<Payer>, heap: Global, member: &str, credit: Credit) -> Result<(), Failure>
    ensures { CreditAdded payers.old payers.new member.now credit result }
{
    let payer = Payer {
        member: String::from_str(heap, member)?,
        credit,
    };
    let Some(place) = payers.add(heap, payer)? else {
        return Ok(());
    };
    let first = payers.list()[place].credit.line;
    let member = String::from_str(heap, member)?;
    Err(Failure::Rejected(Rejection {
        line: credit.line,
        problem: Problem::CreditTwice { member, first },
    }))
}

// The credits that a text holds, by their members, in the order of its lines.
pub fn read_credits(heap: Global, text: &[u8]) -> Result<Names<Payer>, Failure>
    ensures { MatchResult result (CreditsOf text.now) (OnLine text.now) }
{
    let (header, mut table) = Table::open(heap, text)?;
    let member = place(&header, Column::Member)?;
    let cents = place(&header, Column::Cents)?;
    let mut payers = Names::new(heap);
    'lines: while let Some(line) = table.read(heap)? {
        let name = line.name(Column::Member, member)?;
        let cents = line.number(heap, Column::Cents, cents)?.unwrap();
        let credit = Credit {
            cents,
            line: line.number,
        };
        add(&mut payers, heap, name, credit)?;
    }
    Ok(payers)
}
