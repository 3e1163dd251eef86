// The numbers of a range.
ghost use Rattle.std.specs.Prelude.{◌≡◌, ◌-◌, ◌^◌, length, None};
ghost use Rattle.plumbing.specs.Makers.{Outcome};
ghost use Rattle.sources.specs.Ranges.{between};

use plumbing::board::Board;
use plumbing::cursor::{BackCursor, Cursor};
use plumbing::fold::fold_cursor;
use plumbing::folder::Folder;
use plumbing::producer::{Listed, Producer};
use plumbing::refusal::Refusal;

// The numbers from `start` up to `end`, without `end`. There are none where `start` is not below `end`.
#[derive(Drop)]
pub struct RangeSource {
    start: u64,
    end: u64,
}

// The source of a range's numbers. It is never refused.
pub fn range(start: u64, end: u64) -> Result<RangeSource, Refusal>
    ensures { Outcome None (λ x. x ≡ record { start = start; end = end }) result }
{
    Ok(RangeSource { start, end })
}

// How many numbers there are from the one up to the other.
#[tactic(auto, using(crate::proofs::Counting::length_between))]
fn span(start: u64, end: u64) -> usize
    ensures { result ≡ length (between start end) }
{
    end.saturating_sub(start) as usize
}

impl Listed for RangeSource {
    type Item = u64;

    ghost items = { λ s. between s.start s.end };
}

impl Producer for RangeSource {
    type IntoIter = RangeCursor;

    ghost least = { λ _. 1 };

    ghost most = { λ _. 2 ^ 64 - 1 };

    fn into_iter(self) -> RangeCursor {
        RangeCursor {
            start: self.start,
            end: self.end,
        }
    }

    fn min_len(&self) -> usize {
        1
    }

    fn max_len(&self) -> usize {
        usize::MAX
    }

    fn len(&self) -> usize {
        span(self.start, self.end)
    }

    fn split_at(self, index: usize) -> (RangeSource, RangeSource) {
        let mid = self.start + index.min(span(self.start, self.end)) as u64;
        (
            RangeSource {
                start: self.start,
                end: mid,
            },
            RangeSource {
                start: mid,
                end: self.end,
            },
        )
    }

    fn fold_with<F: Folder<Item = u64>>(self, folder: F, board: &mut Board<F::Slot>) -> F {
        fold_cursor(self.into_iter(), folder, board)
    }
}

// The numbers that are still to be read. It is no RangeSource: what is cut and what is read are two
// kinds of things, as everywhere in the port.
#[derive(Drop)]
pub struct RangeCursor {
    start: u64,
    end: u64,
}

impl Cursor for RangeCursor {
    type Item = u64;

    ghost remaining = { λ s. between s.start s.end };

    fn next(self) -> (RangeCursor, Option<u64>) {
        if self.start >= self.end {
            return (self, None);
        }
        let first = self.start;
        (
            RangeCursor {
                start: first + 1,
                end: self.end,
            },
            Some(first),
        )
    }

    fn len(&self) -> usize {
        span(self.start, self.end)
    }
}

impl BackCursor for RangeCursor {
    #[tactic(auto, using(crate::proofs::Counting::between_last))]
    fn next_back(self) -> (RangeCursor, Option<u64>) {
        if self.start >= self.end {
            return (self, None);
        }
        let last = self.end - 1;
        (
            RangeCursor {
                start: self.start,
                end: last,
            },
            Some(last),
        )
    }
}
