// The items of one producer, and then those of another.
ghost use Rattle.std.specs.Prelude.{◌≡◌, ◌+◌, ◌^◌, ◌<◌, min, max, ◌++◌, length};
ghost use Rattle.plumbing.specs.Makers.{Outcome, OverTwo};
ghost use Rattle.plumbing.specs.Refusals.{overlong};

use crate::turns::next_of;
use plumbing::board::Board;
use plumbing::cursor::{BackCursor, Cursor};
use plumbing::folder::Folder;
use plumbing::producer::{Listed, Producer};
use plumbing::refusal::{Giver, Reason, Refusal, refuse_if};

// a, and then b.
#[derive(Drop)]
pub struct ChainProducer<A: Listed, B: Listed<Item = A::Item>> {
    a: A,
    b: B,
    ghost fits: { length (A.items a) + length (B.items b) < 2 ^ 64 },
}

// a and then b. It is refused where they would pass 2^64 - 1 items.
pub fn chain<A: Producer, B: Producer<Item = A::Item>>(
    a: Result<A, Refusal>,
    b: Result<B, Refusal>,
) -> Result<ChainProducer<A, B>, Refusal>
    ensures { OverTwo a b (λ p q. Outcome (overlong Giver.Chain (length (A.items p) + length (B.items q)))
        (λ x. (x.a ≡ p) × (x.b ≡ q))) result }
{
    let a = a?;
    let b = b?;
    refuse_if(
        a.len() > usize::MAX - b.len(),
        Reason::Overlong,
        Giver::Chain,
    )?;
    Ok(ChainProducer { a, b })
}

impl<A: Listed, B: Listed<Item = A::Item>> Listed for ChainProducer<A, B> {
    type Item = A::Item;

    ghost items = { λ s. A.items s.a ++ B.items s.b };
}

impl<A: Producer, B: Producer<Item = A::Item>> Producer for ChainProducer<A, B> {
    type IntoIter = ChainSeq<A::IntoIter, B::IntoIter>;

    ghost least = { λ s. max (A.least s.a) (B.least s.b) };

    ghost most = { λ s. min (A.most s.a) (B.most s.b) };

    fn into_iter(self) -> ChainSeq<A::IntoIter, B::IntoIter> {
        ChainSeq {
            a: self.a.into_iter(),
            b: self.b.into_iter(),
        }
    }

    fn min_len(&self) -> usize {
        self.a.min_len().max(self.b.min_len())
    }

    fn max_len(&self) -> usize {
        self.a.max_len().min(self.b.max_len())
    }

    fn len(&self) -> usize {
        self.a.len() + self.b.len()
    }

    fn split_at(self, index: usize) -> (ChainProducer<A, B>, ChainProducer<A, B>) {
        let ChainProducer { a, b } = self;
        // within a, or all of a and then within b
        let cut = index.min(a.len());
        let rest = (index - cut).min(b.len());
        let (a_left, a_right) = a.split_at(cut);
        let (b_left, b_right) = b.split_at(rest);
        (
            ChainProducer {
                a: a_left,
                b: b_left,
            },
            ChainProducer {
                a: a_right,
                b: b_right,
            },
        )
    }

    fn fold_with<F: Folder<Item = A::Item>>(self, folder: F, board: &mut Board<F::Slot>) -> F {
        let ChainProducer { a, b } = self;
        let folder = a.fold_with(folder, board);
        if folder.full(board) {
            return folder;
        }
        b.fold_with(folder, board)
    }
}

#[derive(Drop)]
pub struct ChainSeq<K: Cursor, L: Cursor<Item = K::Item>> {
    a: K,
    b: L,
    ghost fits: { length (K.remaining a) + length (L.remaining b) < 2 ^ 64 },
}

impl<K: Cursor, L: Cursor<Item = K::Item>> Cursor for ChainSeq<K, L> {
    type Item = K::Item;

    ghost remaining = { λ s. K.remaining s.a ++ L.remaining s.b };

    fn next(self) -> (ChainSeq<K, L>, Option<K::Item>) {
        let ChainSeq { a, b } = self;
        let (a, b, taken) = next_of(a, b);
        (ChainSeq { a, b }, taken)
    }

    fn len(&self) -> usize {
        self.a.len() + self.b.len()
    }
}

impl<K: BackCursor, L: BackCursor<Item = K::Item>> BackCursor for ChainSeq<K, L> {
    fn next_back(self) -> (ChainSeq<K, L>, Option<K::Item>) {
        let ChainSeq { a, b } = self;
        let (b, taken) = b.next_back();
        match taken {
            Some(item) => (ChainSeq { a, b }, Some(item)),
            None => {
                let (a, other) = a.next_back();
                (ChainSeq { a, b }, other)
            }
        }
    }
}
