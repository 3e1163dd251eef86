// The value of a chunk map for each run of a producer's items.
ghost use Rattle.std.specs.Prelude.{◌≡◌, ◌/◌, ◌≤◌, List, map};
ghost use Rattle.plumbing.specs.Makers.{Outcome, OverOne};
ghost use Rattle.plumbing.specs.Refusals.{zero_size};
ghost use Rattle.grouping.specs.Runs.{chunked, run_count};

use crate::runs::{cut_runs, next_back_run, next_run};
use plumbing::board::Board;
use plumbing::cursor::{BackCursor, Cursor};
use plumbing::fold::fold_cursor;
use plumbing::folder::Folder;
use plumbing::producer::{Listed, Producer};
use plumbing::refusal::{Giver, Reason, Refusal, refuse_if};

// A function of a run's list.
pub trait ChunkMap: Copy {
    type In: Copy;

    type Out: Copy;

    ghost value: { Self → List Self.In → Self.Out };

    fn map<K: Cursor<Item = Self::In>>(&self, run: K) -> Self::Out
        ensures { result ≡ value self.now (K.remaining run) };
}

// The map's value for each run of `chunk_size` items, the last run possibly shorter.
#[derive(Drop)]
pub struct ChunkProducer<P, M> {
    base: P,
    chunk_size: usize,
    map: M,
    ghost positive: { 1 ≤ chunk_size },
}

// The map's value for each run of so many items. A size of 0 is refused.
pub fn chunks<P: Producer, M: ChunkMap<In = P::Item>>(
    base: Result<P, Refusal>,
    chunk_size: usize,
    map: M,
) -> Result<ChunkProducer<P, M>, Refusal>
    ensures { OverOne base (λ p. Outcome (zero_size Giver.Chunks chunk_size)
        (λ x. (x.base ≡ p) × (x.chunk_size ≡ chunk_size) × (x.map ≡ map))) result }
{
    let base = base?;
    refuse_if(chunk_size == 0, Reason::Zero, Giver::Chunks)?;
    Ok(ChunkProducer {
        base,
        chunk_size,
        map,
    })
}

impl<P: Listed, M: ChunkMap<In = P::Item>> Listed for ChunkProducer<P, M> {
    type Item = M::Out;

    ghost items = { λ s. map (M.value s.map) (chunked s.chunk_size (P.items s.base)) };
}

impl<P: Producer, M: ChunkMap<In = P::Item>> Producer for ChunkProducer<P, M> {
    type IntoIter = ChunkSeq<P, M>;

    ghost least = { λ s. run_count (P.least s.base) s.chunk_size };

    ghost most = { λ s. P.most s.base / s.chunk_size };

    fn into_iter(self) -> ChunkSeq<P, M> {
        ChunkSeq {
            inner: self.base,
            chunk_size: self.chunk_size,
            map: self.map,
        }
    }

    fn min_len(&self) -> usize {
        self.base.min_len().div_ceil(self.chunk_size)
    }

    fn max_len(&self) -> usize {
        self.base.max_len() / self.chunk_size
    }

    #[tactic(auto, using(crate::proofs::Cutting::length_valued))]
    fn len(&self) -> usize {
        self.base.len().div_ceil(self.chunk_size)
    }

    fn split_at(self, index: usize) -> (ChunkProducer<P, M>, ChunkProducer<P, M>) {
        let ChunkProducer {
            base,
            chunk_size,
            map,
        } = self;
        let (left, right) = cut_runs(base, chunk_size, index);
        (
            ChunkProducer {
                base: left,
                chunk_size,
                map,
            },
            ChunkProducer {
                base: right,
                chunk_size,
                map,
            },
        )
    }

    fn fold_with<F: Folder<Item = M::Out>>(self, folder: F, board: &mut Board<F::Slot>) -> F {
        fold_cursor(self.into_iter(), folder, board)
    }
}

// Each run is cut off the producer that is still to be read.
#[derive(Drop)]
pub struct ChunkSeq<P, M> {
    inner: P,
    chunk_size: usize,
    map: M,
    ghost positive: { 1 ≤ chunk_size },
}

impl<P: Producer, M: ChunkMap<In = P::Item>> Cursor for ChunkSeq<P, M> {
    type Item = M::Out;

    ghost remaining = { λ s. map (M.value s.map) (chunked s.chunk_size (P.items s.inner)) };

    fn next(self) -> (ChunkSeq<P, M>, Option<M::Out>) {
        let ChunkSeq {
            inner,
            chunk_size,
            map,
        } = self;
        let (inner, run) = next_run(inner, chunk_size);
        let value = run.map(|run| map.map(run.into_iter()));
        (
            ChunkSeq {
                inner,
                chunk_size,
                map,
            },
            value,
        )
    }

    #[tactic(auto, using(crate::proofs::Cutting::length_valued))]
    fn len(&self) -> usize {
        self.inner.len().div_ceil(self.chunk_size)
    }
}

impl<P: Producer, M: ChunkMap<In = P::Item>> BackCursor for ChunkSeq<P, M> {
    // One text for both ends would take the cut as a parameter, and its contract what the cut answers.
    fn next_back(self) -> (ChunkSeq<P, M>, Option<M::Out>) {
        let ChunkSeq {
            inner,
            chunk_size,
            map,
        } = self;
        let (inner, run) = next_back_run(inner, chunk_size);
        let value = run.map(|run| map.map(run.into_iter()));
        (
            ChunkSeq {
                inner,
                chunk_size,
                map,
            },
            value,
        )
    }
}
