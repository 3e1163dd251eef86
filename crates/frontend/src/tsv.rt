// The books as tab-separated values for machines: a line for each member, one for the whole log, one
// for each token to stop and one for each machine without a rate. Amounts are whole cents.
ghost use Rattle.std.specs.Prelude.{◌≡◌, ◌++◌, Some, string_bytes, IfOk, OnOk};
ghost use Rattle.frontend.specs.Lines.{Bare, MembersAdded, OfLog, OfMember, PageOf, kind_word, left_cents, line, number_field, rateless_lines, spot_fields, stop_lines};
ghost use Rattle.frontend.specs.declared.tsv.TheConstants.{HEADING};

use ledger::books::{Books, Member};
use ledger::shown::{Escaped, Spot};
use std::alloc::{AllocError, Global};
use std::fmt;
use workshop::credit::Standing;

const HEADING: &str =
    "kind\tname\trecords\tbilled\tcredit\tleft\tran_out_record\tran_out_line\tran_out_machine\tfirst_missing_record\tfirst_missing_line\tfirst_missing_machine\tlast_missing_record\tlast_missing_line\tlast_missing_machine\n";

// What a line speaks of.
#[derive(Clone, Copy)]
enum Kind {
    Member,
    Log,
    Stop,
    NoRate,
}

impl fmt::Display for Kind {
    ghost output = { λ k. Some (kind_word k) };

    fn fmt<W: fmt::Write>(&self, f: &mut fmt::Formatter<W>) -> fmt::Result {
        f.write_str(match self {
            Kind::Member => "member",
            Kind::Log => "log",
            Kind::Stop => "stop",
            Kind::NoRate => "no_rate",
        })
    }
}

// What a line says; what it leaves out is empty.
#[derive(Clone, Copy)]
struct Values<'a> {
    kind: Kind,
    name: &'a str,
    records: Option<u64>,
    billed: Option<u64>,
    credit: Option<u64>,
    left: Option<u64>,
    ran_out: Option<Spot<'a>>,
    first_missing: Option<Spot<'a>>,
    last_missing: Option<Spot<'a>>,
}

// A field with a number, or an empty one.
#[derive(Clone, Copy)]
struct Number(Option<u64>);

impl fmt::Display for Number {
    ghost output = { λ n. Some (number_field n.0) };

    fn fmt<W: fmt::Write>(&self, f: &mut fmt::Formatter<W>) -> fmt::Result {
        match self.0 {
            Some(n) => write!(f, "\t{n}"),
            None => f.write_str("\t"),
        }
    }
}

// Three fields with a record, or three empty ones.
#[derive(Clone, Copy)]
struct Place<'a>(Option<Spot<'a>>);

impl fmt::Display for Place<'_> {
    ghost output = { λ p. Some (spot_fields p.0) };

    fn fmt<W: fmt::Write>(&self, f: &mut fmt::Formatter<W>) -> fmt::Result {
        match self.0 {
            Some(spot) => {
                let number = spot.number;
                let line = spot.line;
                let machine = Escaped(spot.machine);
                write!(f, "\t{number}\t{line}\t{machine}")
            }
            None => f.write_str("\t\t\t"),
        }
    }
}

impl fmt::Display for Values<'_> {
    ghost output = { λ v. Some (line v) };

    fn fmt<W: fmt::Write>(&self, f: &mut fmt::Formatter<W>) -> fmt::Result {
        let kind = self.kind;
        let name = Escaped(self.name);
        let records = Number(self.records);
        let billed = Number(self.billed);
        let credit = Number(self.credit);
        let left = Number(self.left);
        let out = Place(self.ran_out);
        let first = Place(self.first_missing);
        let last = Place(self.last_missing);
        write!(
            f,
            "{kind}\t{name}{records}{billed}{credit}{left}{out}{first}{last}\n"
        )
    }
}

fn left(standing: Standing) -> Option<u64>
    ensures { result ≡ left_cents standing }
{
    match standing {
        Standing::Left(cents) => Some(cents),
        Standing::RanOut(_) | Standing::Unknown(_) => None,
    }
}

impl<'a> Values<'a> {
    fn bare(kind: Kind, name: &'a str) -> Values<'a>
        ensures { Bare kind name.now result }
    {
        Values {
            kind,
            name,
            records: None,
            billed: None,
            credit: None,
            left: None,
            ran_out: None,
            first_missing: None,
            last_missing: None,
        }
    }

    fn of_member(books: &'a Books, member: &'a Member) -> Values<'a>
        ensures { OfMember books.now member.now result }
    {
        let Member {
            name,
            credit,
            account,
            statement,
        } = member;
        Values {
            kind: Kind::Member,
            name: name.as_str(),
            records: Some(statement.records as u64),
            billed: statement.total,
            credit: Some(credit.cents),
            left: left(statement.standing),
            ran_out: books.spot_of(account, statement.standing.ran_out()),
            first_missing: books.spot_of(account, statement.first_missing),
            last_missing: books.spot_of(account, statement.last_missing),
        }
    }

    fn of_log(books: &'a Books) -> Values<'a>
        ensures { OfLog books.now result }
    {
        Values {
            records: Some(books.entries.len() as u64),
            billed: books.whole.total,
            first_missing: books.spot(books.whole.first_missing),
            last_missing: books.spot(books.whole.last_missing),
            ..Values::bare(Kind::Log, "")
        }
    }
}

fn push_members(books: &Books, page: &mut String) -> Result<(), AllocError>
    ensures made { OnOk result (MembersAdded books.now books.now.members.items (string_bytes page.old) (string_bytes page.new)) }
{
    for member in &books.members {
        let values = Values::of_member(books, member);
        write!(page, "{values}")?;
    }
    Ok(())
}

fn push_stops(books: &Books, page: &mut String) -> Result<(), AllocError>
    ensures made { OnOk result (string_bytes page.new ≡ string_bytes page.old ++ stop_lines books.now.members.items) }
{
    for member in &books.members {
        if member.statement.standing.ran_out().is_some() {
            let values = Values::bare(Kind::Stop, member.name.as_str());
            write!(page, "{values}")?;
        }
    }
    Ok(())
}

fn push_rateless(books: &Books, page: &mut String) -> Result<(), AllocError>
    ensures made { OnOk result (string_bytes page.new ≡ string_bytes page.old ++ rateless_lines books.now.machines.items) }
{
    for machine in &books.machines {
        if machine.rateless > 0 {
            let values = Values {
                records: Some(machine.rateless as u64),
                ..Values::bare(Kind::NoRate, machine.name.as_str())
            };
            write!(page, "{values}")?;
        }
    }
    Ok(())
}

pub fn page(heap: Global, books: &Books) -> Result<String, AllocError>
    ensures made { IfOk result (λ t. PageOf HEADING.now books.now (string_bytes t)) }
{
    let mut page = String::from_str(heap, HEADING)?;
    push_members(books, &mut page)?;
    let values = Values::of_log(books);
    write!(&mut page, "{values}")?;
    push_stops(books, &mut page)?;
    push_rateless(books, &mut page)?;
    Ok(page)
}
