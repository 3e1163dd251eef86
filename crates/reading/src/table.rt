ghost use Rattle.std.specs.Prelude.{◌≡◌, ◌+◌, ◌^◌, ◌<◌, ◌≤◌, [], ◌∷◌, length, take, IfOk, Decides};
ghost use Rattle.csv_rows.specs.Grammar.{count_of};
ghost use Rattle.csv_rows.specs.Reads.{cells};
ghost use Rattle.reading.specs.Fields.{field_of, NameIn, NumberIn, PlaceIn, RowOk, Shows};

use crate::failure::{Column, Failure, Problem, Rejection};
use crate::number::number;
use csv_rows::{ReadError, Row};
use std::alloc::{AllocError, Global};

// A line of a file, by its number, and the fields that stand there.
#[derive(Drop)]
pub(crate) struct Line {
    pub number: usize,
    pub fields: Vec<Vec<u8>>,
}

// What is left to read of a file below its header line.
#[derive(Drop)]
pub(crate) struct Table<'a> {
    text: &'a [u8],
    at: usize,
    line: usize,
    width: usize,
    ghost short: { length text.now < 2 ^ 63 },
    ghost within: { at ≤ length text.now },
    ghost stands: { line ≡ 1 + count_of 10 (take at text.now) },
}

// The row that begins at a place, with what is wrong said by its line: so the whole text is taken too.
fn row_at(heap: Global, text: &[u8], at: usize) -> Result<Option<Row>, Failure>
    ensures { RowOk text.now at result }
{
    csv_rows::read_row(heap, text, at).map_err(|e| match e {
        ReadError::Memory => Failure::Memory,
        ReadError::Malformed { fault, at } => Failure::Rejected(Rejection {
            line: csv_rows::line_of(text, at),
            problem: Problem::Malformed(fault),
        }),
    })
}

// A line with nothing on it is passed over.
fn is_blank(row: &Row) -> bool
    ensures { Decides result (cells row.now ≡ [] ∷ []) }
{
    match row.fields.as_slice() {
        [only] => only.is_empty(),
        _ => false,
    }
}

impl<'a> Table<'a> {
    ghost use Rattle.reading.specs.Left.{OpenOk, ReadFrom};

    // The header line, and what stands below it.
    pub(crate) fn open(heap: Global, text: &'a [u8]) -> Result<(Row, Table<'a>), Failure>
        ensures { OpenOk text.now result }
    {
        let Some(header) = row_at(heap, text, csv_rows::after_mark(text))? else {
            return Err(Failure::Rejected(Rejection {
                line: 1,
                problem: Problem::NoHeader,
            }));
        };
        let at = header.next;
        let line = header.lines.saturating_add(1);
        let width = header.fields.len();
        Ok((
            header,
            Table {
                text,
                at,
                line,
                width,
            },
        ))
    }

    // The next line that is not blank.
    pub(crate) fn read(&mut self, heap: Global) -> Result<Option<Line>, Failure>
        ensures same { self.new.text.now ≡ self.old.text.now }
        ensures cases { ReadFrom self.old self.new result }
    {
        'rows: while let Some(row) = row_at(heap, self.text, self.at)? {
            let number = self.line;
            self.at = row.next;
            self.line = self.line.saturating_add(row.lines);
            if is_blank(&row) {
                continue;
            }
            let found = row.fields.len();
            if found != self.width {
                return Err(Failure::Rejected(Rejection {
                    line: number,
                    problem: Problem::FieldCount {
                        found,
                        wanted: self.width,
                    },
                }));
            }
            let Row {
                fields,
                next: _,
                lines: _,
            } = row;
            return Ok(Some(Line { number, fields }));
        }
        Ok(None)
    }
}

// Where a column stands, which the header names once.
pub(crate) fn place(header: &Row, column: Column) -> Result<usize, Rejection>
    ensures { PlaceIn (cells header.now) column result }
{
    let name = column.name().as_bytes();
    let Some(i) = csv_rows::column(header, name) else {
        return Err(Rejection {
            line: 1,
            problem: Problem::MissingColumn(column),
        });
    };
    if header.fields[i + 1..]
        .iter()
        .any(|field| field.as_slice() == name)
    {
        return Err(Rejection {
            line: 1,
            problem: Problem::ColumnTwice(column),
        });
    }
    Ok(i)
}

impl Line {
    fn field(&self, i: usize) -> &[u8]
        ensures { result.now ≡ field_of self.now i }
    {
        self.fields.get(i).map_or(&[][..], |field| field.as_slice())
    }

    // The name that stands in a column. The column and its place are two, so that a call shows which it reads
    // and its bound is known there.
    pub(crate) fn name(&self, column: Column, i: usize) -> Result<&str, Rejection>
        ensures { NameIn self.now.number (field_of self.now i) column result }
    {
        let field = self.field(i);
        if field.is_empty() {
            return Err(Rejection {
                line: self.number,
                problem: Problem::NoName(column),
            });
        }
        std::str::from_utf8(field).map_err(|_e| Rejection {
            line: self.number,
            problem: Problem::NotText(column),
        })
    }

    // The number that stands in a column, or none where it may be left out and is.
    pub(crate) fn number(
        &self,
        heap: Global,
        column: Column,
        i: usize,
    ) -> Result<Option<u64>, Failure>
        ensures { NumberIn self.now.number (field_of self.now i) column result }
    {
        let field = self.field(i);
        if field.is_empty() && column.may_be_empty() {
            return Ok(None);
        }
        let Some(n) = number(field, column.most()) else {
            let found = shown(heap, field)?;
            return Err(Failure::Rejected(Rejection {
                line: self.number,
                problem: Problem::NotNumber { column, found },
            }));
        };
        Ok(Some(n))
    }
}

// At most so many bytes of a field are shown in a message.
const SHOWN: usize = 60;

fn shown(heap: Global, field: &[u8]) -> Result<String, AllocError>
    ensures { IfOk result (λ s. Shows field.now s) }
{
    let end = field.len().min(SHOWN);
    String::from_utf8_lossy(heap, &field[0..end])
}
