// Reads comma-separated text (RFC 4180, with a bare line feed as a line end too) one row at a time.
#![tactic(auto)]

ghost use Rattle.std.specs.Prelude.{Decides, ◌≡◌, ◌+◌, ◌≤◌, ◌⊎◌, ◌∷◌, length, take, Some};
ghost use Rattle.std.specs.List.{prefix_len};
ghost use Rattle.csv_rows.specs.declared.ReadError.TheVariants.{Memory};
ghost use Rattle.csv_rows.specs.Grammar.{Special, count_of};
ghost use Rattle.csv_rows.specs.Reads.{Answer, FirstOf, Marked, cells, words};
ghost use Rattle.csv_rows.specs.Parts.{FieldOf, Followed, is_plain};

use std::alloc::{AllocError, AllocFailed, Global};
use std::fmt;

// What is wrong with a text that is no row.
#[derive(Clone, Copy, PartialEq, Eq, Debug)]
pub enum Fault {
    QuoteInField,
    LoneReturn,
    TextAfterQuote,
    OpenQuote,
}

impl fmt::Display for Fault {
    ghost output = { λ x. Some (words x) };

    fn fmt<W: fmt::Write>(&self, f: &mut fmt::Formatter<W>) -> fmt::Result {
        f.write_str(match self {
            Fault::QuoteInField => "a quote inside a field that is not quoted",
            Fault::LoneReturn => "a carriage return without a line feed",
            Fault::TextAfterQuote => "text after a closing quote",
            Fault::OpenQuote => "a quote that is never closed",
        })
    }
}

#[derive(Debug, Drop)]
pub enum ReadError {
    Memory,
    // `at` is where the offence stands: of an open quote, the quote that opens the field.
    Malformed { fault: Fault, at: usize },
}

// Both by hand, since clauses name the error that comes out, and of a derived one nothing is known.
impl From<AllocError> for ReadError {
    ghost from_gives = { λ _ r. r ≡ Memory };

    fn from(_e: AllocError) -> ReadError {
        ReadError::Memory
    }
}

impl<T: Drop> From<AllocFailed<T>> for ReadError {
    ghost from_gives = { λ _ r. r ≡ Memory };

    fn from(_e: AllocFailed<T>) -> ReadError {
        ReadError::Memory
    }
}

#[derive(Drop)]
pub struct Row {
    pub fields: Vec<Vec<u8>>,
    // Where the next row begins.
    pub next: usize,
    // How many line feeds there are before that, from the row's first byte on.
    pub lines: usize,
}

// The row that begins at `at`, or `None` where no text is left. A place and not the rest of the text is taken,
// since faults and lines are told by their places in the whole.
pub fn read_row(heap: Global, text: &[u8], at: usize) -> Result<Option<Row>, ReadError>
    ensures cases { Answer text.now at result }
{
    if at >= text.len() {
        return Ok(None);
    }
    let mut fields = Vec::new(heap);
    let mut rest = &text[at..];
    'fields: loop {
        let Some(Piece { bytes, after }) = read_field(heap, rest)? else {
            return Err(ReadError::Malformed {
                fault: Fault::OpenQuote,
                at: text.len() - rest.len(),
            });
        };
        fields.push(bytes)?;
        let end = text.len() - after.len();
        match after_field(after) {
            Ok(Follow::Comma(more)) => rest = more,
            Ok(Follow::End(more)) => {
                let next = text.len() - more.len();
                let lines = line_feeds(&text[at..next]);
                return Ok(Some(Row {
                    fields,
                    next,
                    lines,
                }));
            }
            Err(fault) => return Err(ReadError::Malformed { fault, at: end }),
        }
    }
}

// A field at the front of a text, and what is left after it.
#[derive(Drop)]
struct Piece<'a> {
    bytes: Vec<u8>,
    after: &'a [u8],
}

// The field at the front of `text`, or `None` where its quote is never closed.
fn read_field(heap: Global, text: &[u8]) -> Result<Option<Piece>, AllocError>
    ensures cases { FieldOf text.now result }
{
    if let [b'"', quoted @ ..] = text {
        return read_quoted(heap, quoted);
    }
    let (plain, after) = text.split_at(plain_len(text));
    Ok(Some(Piece {
        bytes: Vec::from_slice(heap, plain)?,
        after,
    }))
}

// The field whose opening quote stands before `text`, or `None` where no quote closes it.
fn read_quoted(heap: Global, text: &[u8]) -> Result<Option<Piece>, AllocError>
    ensures cases { FieldOf (34 ∷ text.now) result }
{
    let mut bytes = Vec::new(heap);
    let mut rest = text;
    'bytes: loop {
        // One push for both kinds of bytes, so that it is compiled into the loop.
        let (b, more) = match rest {
            [] => return Ok(None),
            [b'"', b'"', more @ ..] => (b'"', more),
            [b'"', after @ ..] => return Ok(Some(Piece { bytes, after })),
            [b, more @ ..] => (*b, more),
        };
        bytes.push(b)?;
        rest = more;
    }
}

// How many plain bytes stand at the front of `text`.
fn plain_len(text: &[u8]) -> usize
    ensures { result ≡ prefix_len is_plain text.now }
{
    text.iter().take_while(|b| is_plain(**b)).count()
}

// Whether `b` may stand in a field that is not quoted.
fn is_plain(b: u8) -> bool
    ensures value { result ≡ is_plain b }
    ensures grammar { Decides result (Special b → ⊥) }
{
    !matches!(b, b',' | b'"' | b'\r' | b'\n')
}

// What follows a field: a comma or a row's end, each with what is left after it.
enum Follow<'a> {
    Comma(&'a [u8]),
    End(&'a [u8]),
}

// What stands at the front of `text`, which begins right after a field.
// A quote after a closing quote belongs to the field, so one that stands here is inside a plain field.
fn after_field(text: &[u8]) -> Result<Follow, Fault>
    ensures cases { Followed text.now result }
{
    match text {
        [] => Ok(Follow::End(text)),
        [b',', more @ ..] => Ok(Follow::Comma(more)),
        [b'\n', more @ ..] => Ok(Follow::End(more)),
        [b'\r', b'\n', more @ ..] => Ok(Follow::End(more)),
        [b'\r', ..] => Err(Fault::LoneReturn),
        [b'"', ..] => Err(Fault::QuoteInField),
        _ => Err(Fault::TextAfterQuote),
    }
}

// How many line feeds there are.
fn line_feeds(text: &[u8]) -> usize
    ensures value { result ≡ count_of 10 text.now }
    ensures bound { result ≤ length text.now }
{
    // `filter` and `count` were tried and are slower: this loop is compiled to one without a branch.
    let mut n = 0;
    'bytes: for b in text {
        if *b == b'\n' {
            n += 1;
        }
    }
    n
}

// Where the first row begins: at 3 where the text begins with the byte-order mark EF BB BF, which is no part
// of its first field, else at 0. It is a place and no kind.
pub fn after_mark(text: &[u8]) -> usize
    ensures cases { ((result ≡ 3) × Marked text.now) ⊎ ((result ≡ 0) × (Marked text.now → ⊥)) }
{
    match text {
        [0xef, 0xbb, 0xbf, ..] => 3,
        _ => 0,
    }
}

// The index of the first field that equals `name`.
pub fn column(names: &Row, name: &[u8]) -> Option<usize>
    ensures cases { FirstOf (cells names.now) name.now result }
{
    names
        .fields
        .iter()
        .position(|field| field.as_slice() == name)
}

// The line, counted from 1, on which the byte at `at` stands: of the whole text, as `read_row` tells places.
pub fn line_of(text: &[u8], at: usize) -> usize
    ensures value { result ≡ 1 + count_of 10 (take at text.now) }
{
    1 + line_feeds(&text[..at.min(text.len())])
}
