ghost use Rattle.std.specs.Prelude.{◌≡◌, ℕ, List, map, MatchResult, string_bytes};
ghost use Rattle.workshop.specs.declared.usage.Usage.{Usage as Used};
ghost use Rattle.csv_rows.specs.Reads.{cells};
ghost use Rattle.reading.specs.Books.{NameOf, LogOf};
ghost use Rattle.reading.specs.Tables.{OnLine};
ghost use Rattle.reading.specs.Fields.{field_of, AtLine};
ghost use Rattle.reading.specs.Parts.{Located, UsageRead, MachineRead, EntryRead};

use crate::failure::{Column, Failure, Problem, Rejection};
use crate::names::{Named, Names};
use crate::table::{Line, Table, place};
use csv_rows::Row;
use std::alloc::Global;
use workshop::usage::{Billable, Usage};

// A record of the log: whose it is and which machine's, by their places among the names, and the
// line on which it stands.
#[derive(Clone, Copy)]
pub struct Entry {
    pub member: usize,
    pub machine: usize,
    pub line: usize,
    // seconds since 1970
    pub start: Option<u64>,
    pub usage: Usage,
}

impl Billable for Entry {
    ghost used = { λ e. e.usage };

    fn usage(self) -> Usage {
        self.usage
    }
}

#[derive(Drop)]
pub struct Log {
    pub entries: Vec<Entry>,
    pub machines: Names<String>,
}

// Where the columns of a log stand.
#[derive(Clone, Copy)]
struct Columns {
    member: usize,
    machine: usize,
    start: usize,
    minutes: usize,
    rate: usize,
}

impl Columns {
    fn find(header: &Row) -> Result<Columns, Rejection>
        ensures { MatchResult result (Located (cells header.now)) (λ e. e.line ≡ 1) }
    {
        Ok(Columns {
            member: place(header, Column::Member)?,
            machine: place(header, Column::Machine)?,
            start: place(header, Column::Start)?,
            minutes: place(header, Column::Minutes)?,
            rate: place(header, Column::Rate)?,
        })
    }

    // The minutes and the rate, which is 0 where none is given.
    fn read_usage(self, heap: Global, line: &Line) -> Result<Usage, Failure>
        ensures { MatchResult result (UsageRead line.now self) (AtLine line.now.number) }
    {
        let minutes = line.number(heap, Column::Minutes, self.minutes)?.unwrap();
        let rate = line.number(heap, Column::Rate, self.rate)?.unwrap_or(0);
        Ok(Usage {
            minutes: minutes as u16,
            rate: rate as u16,
        })
    }

    // The place of a line's member.
    fn read_member<T: Named>(
        self,
        heap: Global,
        line: &Line,
        members: &Names<T>,
    ) -> Result<usize, Failure>
        ensures { MatchResult result (λ k. NameOf (map T.name members.now) k (field_of line.now self.member)) (AtLine line.now.number) }
    {
        let name = line.name(Column::Member, self.member)?;
        let Some(i) = members.find(name) else {
            let member = String::from_str(heap, name)?;
            return Err(Failure::Rejected(Rejection {
                line: line.number,
                problem: Problem::NoCredit(member),
            }));
        };
        Ok(i)
    }

    // The place of a line's machine, which joins the others where it is new.
    fn read_machine(
        self,
        heap: Global,
        line: &Line,
        machines: &mut Names<String>,
    ) -> Result<usize, Failure>
        ensures { MatchResult result (MachineRead (map string_bytes machines.old) (map string_bytes machines.new) (field_of line.now self.machine)) (AtLine line.now.number) }
    {
        let name = line.name(Column::Machine, self.machine)?;
        if let Some(i) = machines.find(name) {
            return Ok(i);
        }
        Ok(machines.push(heap, String::from_str(heap, name)?)?)
    }

    fn read_entry<T: Named>(
        self,
        heap: Global,
        line: &Line,
        members: &Names<T>,
        machines: &mut Names<String>,
    ) -> Result<Entry, Failure>
        ensures { MatchResult result (λ entry. (header : List (List ℕ)) → Located header self → EntryRead header (map T.name members.now) (map string_bytes machines.old) (map string_bytes machines.new) line.now entry) (AtLine line.now.number) }
    {
        let member = self.read_member(heap, line, members)?;
        let machine = self.read_machine(heap, line, machines)?;
        let start = line.number(heap, Column::Start, self.start)?;
        let usage = self.read_usage(heap, line)?;
        Ok(Entry {
            member,
            machine,
            line: line.number,
            start,
            usage,
        })
    }
}

// The log that a text holds, whose members are among those given.
pub fn read_log<T: Named>(heap: Global, text: &[u8], members: &Names<T>) -> Result<Log, Failure>
    ensures { MatchResult result (LogOf text.now (map T.name members.now)) (OnLine text.now) }
{
    let (header, mut table) = Table::open(heap, text)?;
    let at = Columns::find(&header)?;
    let mut log = Log {
        entries: Vec::new(heap),
        machines: Names::new(heap),
    };
    'lines: while let Some(line) = table.read(heap)? {
        let entry = at.read_entry(heap, &line, members, &mut log.machines)?;
        log.entries.push(entry)?;
    }
    Ok(log)
}
