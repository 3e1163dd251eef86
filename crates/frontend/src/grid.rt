// Rows of cells, set in columns.
ghost use Rattle.std.specs.Prelude.{◌<◌, ◌^◌, length};
ghost use Rattle.std.specs.Fmt.{WritesOnOk};
ghost use Rattle.frontend.specs.Grid.{aligned};

use std::alloc::{AllocError, Global};
use std::fmt;

#[derive(Clone, Copy, PartialEq, Eq, Debug)]
pub enum Align {
    Left,
    Right,
}

// The side that a column's texts stand at, and how many characters the longest of them has.
#[derive(Clone, Copy)]
struct Column {
    align: Align,
    width: usize,
}

impl Column {
    fn write_cell<W: fmt::Write>(self, text: &str, f: &mut fmt::Formatter<W>) -> fmt::Result
        requires { length text.now < 2 ^ 64 }
        ensures prints { WritesOnOk W.write_str_gives f.old result
            (aligned self.align self.width text.now) f.new }
    {
        let width = self.width;
        match self.align {
            Align::Left => write!(f, "{text:<width$}"),
            Align::Right => write!(f, "{text:>width$}"),
        }
    }
}

#[derive(Drop)]
pub struct Grid<const N: usize> {
    columns: [Column; N],
    rows: Vec<[String; N]>,
}

impl<const N: usize> Grid<N> {
    pub fn new(heap: Global, columns: [Align; N]) -> Grid<N> {
        Grid {
            columns: columns.map(|align| Column { align, width: 0 }),
            rows: Vec::new(heap),
        }
    }

    pub fn push(&mut self, row: [String; N]) -> Result<(), AllocError> {
        for (column, cell) in self.columns.iter_mut().zip(row.iter()) {
            column.width = column.width.max(cell.chars().count());
        }
        self.rows.push(row)?;
        Ok(())
    }
}

fn write_row<const N: usize, W: fmt::Write>(
    columns: &[Column; N],
    row: &[String; N],
    f: &mut fmt::Formatter<W>,
) -> fmt::Result {
    let last = N.saturating_sub(1);
    for (i, (column, cell)) in columns.iter().zip(row.iter()).enumerate() {
        if i > 0 {
            f.write_str("  ")?;
        }
        if i == last && column.align == Align::Left {
            // No spaces stand at the end of a line.
            f.write_str(cell.as_str())?;
        } else {
            column.write_cell(cell.as_str(), f)?;
        }
    }
    f.write_char('\n')
}

impl<const N: usize> fmt::Display for Grid<N> {
    fn fmt<W: fmt::Write>(&self, f: &mut fmt::Formatter<W>) -> fmt::Result {
        for row in self.rows.iter() {
            write_row(&self.columns, row, f)?;
        }
        Ok(())
    }
}
