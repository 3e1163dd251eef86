// The items of a slice.
ghost use Rattle.std.specs.Prelude.{◌≡◌, ◌-◌, ◌^◌, None};
ghost use Rattle.plumbing.specs.Makers.{Outcome};

use plumbing::board::Board;
use plumbing::cursor::{BackCursor, Cursor};
use plumbing::fold::fold_cursor;
use plumbing::folder::Folder;
use plumbing::producer::{Listed, Producer};
use plumbing::refusal::Refusal;

// A slice of plain values.
#[derive(Drop)]
pub struct SliceSource<'a, T> {
    slice: &'a [T],
}

// The source of a slice's items. It is never refused.
pub fn slice<'a, T: Copy>(slice: &'a [T]) -> Result<SliceSource<'a, T>, Refusal>
    ensures { Outcome None (λ x. x.slice.now ≡ slice.now) result }
{
    Ok(SliceSource { slice })
}

impl<'a, T: Copy> Listed for SliceSource<'a, T> {
    type Item = T;

    ghost items = { λ s. s.slice.now };
}

impl<'a, T: Copy> Producer for SliceSource<'a, T> {
    type IntoIter = SliceCursor<'a, T>;

    ghost least = { λ _. 1 };

    ghost most = { λ _. 2 ^ 64 - 1 };

    fn into_iter(self) -> SliceCursor<'a, T> {
        SliceCursor { rest: self.slice }
    }

    fn min_len(&self) -> usize {
        1
    }

    fn max_len(&self) -> usize {
        usize::MAX
    }

    fn len(&self) -> usize {
        self.slice.len()
    }

    fn split_at(self, index: usize) -> (SliceSource<'a, T>, SliceSource<'a, T>) {
        let (left, right) = self.slice.split_at(index.min(self.slice.len()));
        (SliceSource { slice: left }, SliceSource { slice: right })
    }

    fn fold_with<F: Folder<Item = T>>(self, folder: F, board: &mut Board<F::Slot>) -> F {
        fold_cursor(self.into_iter(), folder, board)
    }
}

// The part of a slice that is still to be read. It is no SliceSource: what is cut and what is read
// are two kinds of things, as everywhere in the port.
#[derive(Drop)]
pub struct SliceCursor<'a, T> {
    rest: &'a [T],
}

impl<'a, T: Copy> Cursor for SliceCursor<'a, T> {
    type Item = T;

    ghost remaining = { λ s. s.rest.now };

    fn next(self) -> (SliceCursor<'a, T>, Option<T>) {
        match self.rest.split_first() {
            None => (self, None),
            Some((first, rest)) => (SliceCursor { rest }, Some(*first)),
        }
    }

    fn len(&self) -> usize {
        self.rest.len()
    }
}

impl<'a, T: Copy> BackCursor for SliceCursor<'a, T> {
    fn next_back(self) -> (SliceCursor<'a, T>, Option<T>) {
        match self.rest.split_last() {
            None => (self, None),
            Some((last, rest)) => (SliceCursor { rest }, Some(*last)),
        }
    }
}
