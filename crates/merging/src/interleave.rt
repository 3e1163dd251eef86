// The items of two producers in turn.
ghost use Rattle.std.specs.Prelude.{◌≡◌, ◌+◌, ◌^◌, ◌<◌, min, max, true, false, length};
ghost use Rattle.plumbing.specs.Cursors.{left_in};
ghost use Rattle.plumbing.specs.Makers.{Outcome, OverTwo};
ghost use Rattle.plumbing.specs.Refusals.{overlong};
ghost use Rattle.merging.specs.Interleave.{alternated, interleaved};
ghost use Rattle.merging.specs.Shares.{Dealt, EndsFirst, EndsSecond};

use crate::turns::next_of;
use plumbing::board::Board;
use plumbing::cursor::{BackCursor, Cursor};
use plumbing::fold::fold_cursor;
use plumbing::folder::Folder;
use plumbing::fuse::Fuse;
use plumbing::producer::{Listed, Producer};
use plumbing::refusal::{Giver, Reason, Refusal, refuse_if};

// The items of i and j in turn, and then the rest of the longer. i starts, or j where `i_next` is set.
#[derive(Drop)]
pub struct InterleaveProducer<I: Listed, J: Listed<Item = I::Item>> {
    i: I,
    j: J,
    i_next: bool,
    ghost fits: { length (I.items i) + length (J.items j) < 2 ^ 64 },
}

// The items of i and j in turn, i first. It is refused where they would pass 2^64 - 1 items.
pub fn interleave<I: Producer, J: Producer<Item = I::Item>>(
    i: Result<I, Refusal>,
    j: Result<J, Refusal>,
) -> Result<InterleaveProducer<I, J>, Refusal>
    ensures { OverTwo i j (λ p q. Outcome (overlong Giver.Interleave (length (I.items p) + length (J.items q)))
        (λ x. (x.i ≡ p) × (x.j ≡ q) × (x.i_next ≡ false)
        × (interleaved x.i_next (I.items x.i) (J.items x.j) ≡ alternated (I.items p) (J.items q)))) result }
{
    let i = i?;
    let j = j?;
    refuse_if(
        i.len() > usize::MAX - j.len(),
        Reason::Overlong,
        Giver::Interleave,
    )?;
    Ok(InterleaveProducer {
        i,
        j,
        i_next: false,
    })
}

// How many items each side gives to the left part of a cut, and the flag of the right part.
#[derive(Clone, Copy)]
struct Shares {
    i: usize,
    j: usize,
    i_next: bool,
}

// The shares of the two sides in the first items of an interleaving.
fn deal(index: usize, i_len: usize, j_len: usize, i_next: bool) -> Shares
    ensures { Dealt index i_len j_len i_next result }
{
    let even = index % 2 == 0;
    let idx = index / 2;
    // the desired split
    let i_idx = idx + usize::from(!(even || i_next));
    let j_idx = idx + usize::from(!(even || !i_next));
    let trailing_i_next = even == i_next;
    if i_len >= i_idx && j_len >= j_idx {
        Shares {
            i: i_idx,
            j: j_idx,
            i_next: trailing_i_next,
        }
    } else if i_len >= i_idx {
        // j is too short
        Shares {
            i: index - j_len,
            j: j_len,
            i_next: trailing_i_next,
        }
    } else {
        // i is too short
        Shares {
            i: i_len,
            j: index - i_len,
            i_next: trailing_i_next,
        }
    }
}

impl<I: Listed, J: Listed<Item = I::Item>> Listed for InterleaveProducer<I, J> {
    type Item = I::Item;

    ghost items = { λ s. interleaved s.i_next (I.items s.i) (J.items s.j) };
}

impl<I: Producer, J: Producer<Item = I::Item>> Producer for InterleaveProducer<I, J> {
    type IntoIter = InterleaveSeq<I::IntoIter, J::IntoIter>;

    ghost least = { λ s. max (I.least s.i) (J.least s.j) };

    ghost most = { λ s. min (I.most s.i) (J.most s.j) };

    fn into_iter(self) -> InterleaveSeq<I::IntoIter, J::IntoIter> {
        InterleaveSeq {
            i: Fuse::new(self.i.into_iter()),
            j: Fuse::new(self.j.into_iter()),
            i_next: self.i_next,
        }
    }

    fn min_len(&self) -> usize {
        self.i.min_len().max(self.j.min_len())
    }

    fn max_len(&self) -> usize {
        self.i.max_len().min(self.j.max_len())
    }

    #[tactic(auto, using(crate::proofs::Interleaving::length_interleaved))]
    fn len(&self) -> usize {
        self.i.len() + self.j.len()
    }

    fn split_at(self, index: usize) -> (InterleaveProducer<I, J>, InterleaveProducer<I, J>) {
        let InterleaveProducer { i, j, i_next } = self;
        let i_len = i.len();
        let j_len = j.len();
        let split = deal(index.min(i_len + j_len), i_len, j_len, i_next);
        let (i_left, i_right) = i.split_at(split.i);
        let (j_left, j_right) = j.split_at(split.j);
        (
            InterleaveProducer {
                i: i_left,
                j: j_left,
                i_next,
            },
            InterleaveProducer {
                i: i_right,
                j: j_right,
                i_next: split.i_next,
            },
        )
    }

    fn fold_with<F: Folder<Item = I::Item>>(self, folder: F, board: &mut Board<F::Slot>) -> F {
        fold_cursor(self.into_iter(), folder, board)
    }
}

// i gives the next item, or j where `i_next` is set.
#[derive(Drop)]
pub struct InterleaveSeq<K: Cursor, L: Cursor<Item = K::Item>> {
    i: Fuse<K>,
    j: Fuse<L>,
    i_next: bool,
    ghost fits: { length (left_in K.remaining i) + length (left_in L.remaining j) < 2 ^ 64 },
}

// Whether the last item is one of i's. It comes from the side that runs out last, which is the one
// with more items; of two with as many, it is the one that goes second.
fn ends_in_i(i_len: usize, j_len: usize, i_next: bool) -> bool
    ensures first { result ≡ true → EndsFirst i_next i_len j_len }
    ensures second { result ≡ false → EndsSecond i_next i_len j_len }
{
    if i_len == j_len {
        i_next
    } else {
        i_len > j_len
    }
}

impl<K: Cursor, L: Cursor<Item = K::Item>> Cursor for InterleaveSeq<K, L> {
    type Item = K::Item;

    ghost remaining = { λ s. interleaved s.i_next (left_in K.remaining s.i) (left_in L.remaining s.j) };

    fn next(self) -> (InterleaveSeq<K, L>, Option<K::Item>) {
        let InterleaveSeq { i, j, i_next } = self;
        if i_next {
            let (j, i, taken) = next_of(j, i);
            (
                InterleaveSeq {
                    i,
                    j,
                    i_next: false,
                },
                taken,
            )
        } else {
            let (i, j, taken) = next_of(i, j);
            (InterleaveSeq { i, j, i_next: true }, taken)
        }
    }

    #[tactic(auto, using(crate::proofs::Interleaving::length_interleaved))]
    fn len(&self) -> usize {
        self.i.len() + self.j.len()
    }
}

impl<K: BackCursor, L: BackCursor<Item = K::Item>> BackCursor for InterleaveSeq<K, L> {
    fn next_back(self) -> (InterleaveSeq<K, L>, Option<K::Item>) {
        let InterleaveSeq { i, j, i_next } = self;
        if ends_in_i(i.len(), j.len(), i_next) {
            let (i, taken) = i.next_back();
            (InterleaveSeq { i, j, i_next }, taken)
        } else {
            let (j, taken) = j.next_back();
            (InterleaveSeq { i, j, i_next }, taken)
        }
    }
}
