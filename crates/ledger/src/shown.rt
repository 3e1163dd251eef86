// How amounts, names and places are written.
ghost use Rattle.std.specs.Char.{encode_utf8};
ghost use Rattle.std.specs.Fmt.{WritesOnOk};
ghost use Rattle.std.specs.Prelude.{Some};
ghost use Rattle.ledger.specs.Written.{counted, escaped, money, spotted};

use std::fmt;

// Cents, as whole units and two digits.
#[derive(Clone, Copy)]
pub struct Money(pub u64);

impl fmt::Display for Money {
    ghost output = { λ m. Some (money m.0) };

    #[tactic(auto, using(crate::proofs::Digits::two_digits))]
    fn fmt<W: fmt::Write>(&self, f: &mut fmt::Formatter<W>) -> fmt::Result {
        let units = self.0 / 100;
        let cents = self.0 % 100;
        write!(f, "{units}.{cents:02}")
    }
}

// So many of a thing, by its name in the singular.
#[derive(Clone, Copy)]
pub struct Count<'a>(pub usize, pub &'a str);

impl fmt::Display for Count<'_> {
    ghost output = { λ c. Some (counted c.0 c.1.now) };

    fn fmt<W: fmt::Write>(&self, f: &mut fmt::Formatter<W>) -> fmt::Result {
        let n = self.0;
        let name = self.1;
        let plural = if n == 1 { "" } else { "s" };
        write!(f, "{n} {name}{plural}")
    }
}

// A text of one line: what would break the line or a column is written by a backslash.
#[derive(Clone, Copy)]
pub struct Escaped<'a>(pub &'a str);

// One character of such a text.
fn write_escaped<W: fmt::Write>(c: char, f: &mut fmt::Formatter<W>) -> fmt::Result
    ensures prints { WritesOnOk W.write_str_gives f.old result (escaped (encode_utf8 c)) f.new }
{
    match c {
        '\t' => f.write_str("\\t"),
        '\n' => f.write_str("\\n"),
        '\r' => f.write_str("\\r"),
        '\\' => f.write_str("\\\\"),
        _ => f.write_char(c),
    }
}

impl fmt::Display for Escaped<'_> {
    ghost output = { λ e. Some (escaped e.0.now) };

    fn fmt<W: fmt::Write>(&self, f: &mut fmt::Formatter<W>) -> fmt::Result {
        for c in self.0.chars() {
            write_escaped(c, f)?;
        }
        Ok(())
    }
}

// A record of the log, by its number from 1 on, its line and its machine.
#[derive(Clone, Copy)]
pub struct Spot<'a> {
    pub number: usize,
    pub line: usize,
    pub machine: &'a str,
}

impl fmt::Display for Spot<'_> {
    ghost output = { λ s. Some (spotted s) };

    fn fmt<W: fmt::Write>(&self, f: &mut fmt::Formatter<W>) -> fmt::Result {
        let number = self.number;
        let line = self.line;
        let machine = Escaped(self.machine);
        write!(f, "record {number}, line {line}, {machine}")
    }
}
