// The books as text for people.
ghost use Rattle.std.specs.Prelude.{◌≡◌, [], ◌∷◌, ◌++◌, map, IfOk, IfSome, string_bytes};
ghost use Rattle.std.specs.List.{AllZip};
ghost use Rattle.frontend.specs.Cells.{LogLine, Outcome, RowOf, TellsWhy, billed_text, left_text, listed, rateless_texts, spot_text, to_stop, why_text, written_or};
ghost use Rattle.frontend.specs.Told.{all_totalless};

use crate::grid::{Align, Grid};
use ledger::books::{Books, Member};
use ledger::shown::{Count, Escaped, Money, Spot};
use std::alloc::{AllocError, Global};
use std::fmt;
use workshop::credit::Standing;

// The columns of the members' grid, each with its name and the side that its texts stand at.
const COLUMNS: [(&str, Align); 8] = [
    ("member", Align::Left),
    ("records", Align::Right),
    ("billed", Align::Right),
    ("credit", Align::Right),
    ("left", Align::Right),
    ("credit ran out at", Align::Left),
    ("first without a rate", Align::Left),
    ("last without a rate", Align::Left),
];

// The value, or these words where there is none.
fn text_or<T: fmt::Display + Copy>(
    heap: Global,
    value: Option<T>,
    words: &str,
) -> Result<String, AllocError>
    ensures made { IfOk result (λ t. IfSome (written_or T.output value words.now) (λ text. string_bytes t ≡ text)) }
{
    match value {
        Some(value) => value.to_string(heap),
        None => String::from_str(heap, words),
    }
}

fn billed(heap: Global, total: Option<u64>) -> Result<String, AllocError>
    ensures made { IfOk result (λ t. string_bytes t ≡ billed_text total) }
{
    text_or(heap, total.map(Money), "no total")
}

fn left(heap: Global, standing: Standing) -> Result<String, AllocError>
    ensures made { IfOk result (λ t. string_bytes t ≡ left_text standing) }
{
    match standing {
        Standing::Left(cents) => Money(cents).to_string(heap),
        Standing::RanOut(_) => String::from_str(heap, "none"),
        Standing::Unknown(_) => String::from_str(heap, "not known"),
    }
}

fn spot(heap: Global, spot: Option<Spot<'_>>) -> Result<String, AllocError>
    ensures made { IfOk result (λ t. string_bytes t ≡ spot_text spot.entry) }
{
    text_or(heap, spot, "-")
}

fn member_row(heap: Global, books: &Books, member: &Member) -> Result<[String; 8], AllocError>
    ensures made { IfOk result (RowOf books.now member.now) }
{
    let Member {
        name,
        credit,
        account,
        statement,
    } = member;
    Ok([
        Escaped(name.as_str()).to_string(heap)?,
        statement.records.to_string(heap)?,
        billed(heap, statement.total)?,
        Money(credit.cents).to_string(heap)?,
        left(heap, statement.standing)?,
        spot(heap, books.spot_of(account, statement.standing.ran_out()))?,
        spot(heap, books.spot_of(account, statement.first_missing))?,
        spot(heap, books.spot_of(account, statement.last_missing))?,
    ])
}

fn member_grid(heap: Global, books: &Books) -> Result<Grid<8>, AllocError> {
    let mut grid = Grid::new(heap, COLUMNS.map(|(_name, align)| align));
    grid.push(COLUMNS.try_map(|(name, _align)| String::from_str(heap, name))?)?;
    for member in &books.members {
        grid.push(member_row(heap, books, member)?)?;
    }
    Ok(grid)
}

// Why there is no total: a record without a rate, or a sum that no amount holds.
fn no_total(heap: Global, first: Option<Spot<'_>>) -> Result<String, AllocError>
    ensures made { IfOk result (λ t. string_bytes t ≡ why_text first.entry) }
{
    text_or(heap, first, "a sum above 18446744073709551615 cents")
}

// What the whole log comes to.
fn outcome(heap: Global, books: &Books) -> Result<String, AllocError>
    ensures made { IfOk result (λ t. Outcome books.now books.now.whole.total (string_bytes t)) }
{
    match books.whole.total {
        Some(cents) => {
            let total = Money(cents);
            format!(in heap; "total {total}")
        }
        None => {
            let why = no_total(heap, books.spot(books.whole.first_missing))?;
            format!(in heap; "no total ({why})")
        }
    }
}

fn log_line(heap: Global, books: &Books) -> Result<String, AllocError>
    ensures made { IfOk result (λ t. LogLine books.now (string_bytes t)) }
{
    let records = Count(books.entries.len(), "record");
    let members = Count(books.members.len(), "member");
    let outcome = outcome(heap, books)?;
    format!(in heap; "whole log: {records}, {members}, {outcome}\n")
}

// A line that lists texts after a title. The texts go before the line is made.
fn list_line(heap: Global, title: &str, texts: Vec<String>) -> Result<String, AllocError>
    ensures made { IfOk result (λ t. string_bytes t ≡ title.now ++ (listed texts.items ++ (10 ∷ []))) }
{
    if texts.is_empty() {
        return format!(in heap; "{title} none\n");
    }
    let listed = texts.join(heap, ", ")?;
    drop(texts);
    format!(in heap; "{title} {listed}\n")
}

fn tokens_to_stop(heap: Global, books: &Books) -> Result<Vec<String>, AllocError>
    ensures made { IfOk result (λ t. map string_bytes t.items ≡ to_stop books.now.members.items) }
{
    books
        .members
        .iter()
        .filter(|member| member.statement.standing.ran_out().is_some())
        .map(|member| Escaped(member.name.as_str()).to_string(heap))
        .try_collect(heap)
}

// A member, and why there is no total.
fn totalless(heap: Global, books: &Books, member: &Member) -> Result<String, AllocError>
    ensures made { IfOk result (TellsWhy books.now member.now) }
{
    let name = Escaped(member.name.as_str());
    let first = books.spot_of(&member.account, member.statement.first_missing);
    let why = no_total(heap, first)?;
    format!(in heap; "{name} ({why})")
}

fn without_total(heap: Global, books: &Books) -> Result<Vec<String>, AllocError>
    ensures made { IfOk result (λ t. AllZip (TellsWhy books.now) (all_totalless books.now.members.items) t.items) }
{
    books
        .members
        .iter()
        .filter(|member| member.statement.total.is_none())
        .map(|member| totalless(heap, books, member))
        .try_collect(heap)
}

fn without_rate(heap: Global, books: &Books) -> Result<Vec<String>, AllocError>
    ensures made { IfOk result (λ t. map string_bytes t.items ≡ rateless_texts books.now.machines.items) }
{
    books
        .machines
        .iter()
        .filter(|machine| machine.rateless > 0)
        .map(|machine| {
            let name = Escaped(machine.name.as_str());
            let records = Count(machine.rateless, "record");
            format!(in heap; "{name} ({records})")
        })
        .try_collect(heap)
}

// The page grows part by part, and each part goes once it is there.
pub fn page(heap: Global, books: &Books) -> Result<String, AllocError> {
    let mut page = member_grid(heap, books)?.to_string(heap)?;
    page.push_str("\n")?;
    page.push_str(log_line(heap, books)?.as_str())?;
    let stop = tokens_to_stop(heap, books)?;
    page.push_str(list_line(heap, "tokens to stop:", stop)?.as_str())?;
    let no_total = without_total(heap, books)?;
    page.push_str(list_line(heap, "members without a total:", no_total)?.as_str())?;
    let no_rate = without_rate(heap, books)?;
    page.push_str(list_line(heap, "machines without a rate:", no_rate)?.as_str())?;
    Ok(page)
}
