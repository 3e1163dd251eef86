// The items of a producer at the places 0, s, 2s and so on.
ghost use Rattle.std.specs.Prelude.{◌≡◌, ◌/◌, ◌≤◌};
ghost use Rattle.plumbing.specs.Makers.{Outcome, OverOne};
ghost use Rattle.plumbing.specs.Refusals.{zero_size};
ghost use Rattle.grouping.specs.Runs.{run_count, stepped, Places};

use crate::runs::{cut_runs, next_back_run, next_run};
use plumbing::board::Board;
use plumbing::cursor::{BackCursor, Cursor};
use plumbing::fold::fold_cursor;
use plumbing::folder::Folder;
use plumbing::producer::{Listed, Producer};
use plumbing::refusal::{Giver, Reason, Refusal, refuse_if};

// The first item of each run of `step` items.
#[derive(Drop)]
pub struct StepByProducer<P> {
    base: P,
    step: usize,
    ghost positive: { 1 ≤ step },
}

// The items at the places 0, step, 2 * step and so on. A step of 0 is refused.
#[tactic(auto, using(crate::proofs::Cutting::stepped_places))]
pub fn step_by<P: Producer>(
    base: Result<P, Refusal>,
    step: usize,
) -> Result<StepByProducer<P>, Refusal>
    ensures { OverOne base (λ p. Outcome (zero_size Giver.StepBy step)
        (λ x. (x.base ≡ p) × (x.step ≡ step) × Places step (P.items p) (stepped x.step (P.items x.base)))) result }
{
    let base = base?;
    refuse_if(step == 0, Reason::Zero, Giver::StepBy)?;
    Ok(StepByProducer { base, step })
}

impl<P: Listed> Listed for StepByProducer<P> {
    type Item = P::Item;

    ghost items = { λ s. stepped s.step (P.items s.base) };
}

impl<P: Producer> Producer for StepByProducer<P> {
    type IntoIter = StepBySeq<P>;

    ghost least = { λ s. run_count (P.least s.base) s.step };

    ghost most = { λ s. P.most s.base / s.step };

    fn into_iter(self) -> StepBySeq<P> {
        StepBySeq {
            base: self.base,
            step: self.step,
        }
    }

    fn min_len(&self) -> usize {
        self.base.min_len().div_ceil(self.step)
    }

    fn max_len(&self) -> usize {
        self.base.max_len() / self.step
    }

    #[tactic(auto, using(crate::proofs::Cutting::length_stepped))]
    fn len(&self) -> usize {
        self.base.len().div_ceil(self.step)
    }

    fn split_at(self, index: usize) -> (StepByProducer<P>, StepByProducer<P>) {
        let StepByProducer { base, step } = self;
        let (left, right) = cut_runs(base, step, index);
        (
            StepByProducer { base: left, step },
            StepByProducer { base: right, step },
        )
    }

    fn fold_with<F: Folder<Item = P::Item>>(self, folder: F, board: &mut Board<F::Slot>) -> F {
        fold_cursor(self.into_iter(), folder, board)
    }
}

// What is skipped is cut off the producer that is still to be read. It is no ChunkSeq with a map to
// the first item: a map has a value for every list, and an empty one has no first item.
#[derive(Drop)]
pub struct StepBySeq<P> {
    base: P,
    step: usize,
    ghost positive: { 1 ≤ step },
}

impl<P: Producer> Cursor for StepBySeq<P> {
    type Item = P::Item;

    ghost remaining = { λ s. stepped s.step (P.items s.base) };

    fn next(self) -> (StepBySeq<P>, Option<P::Item>) {
        let StepBySeq { base, step } = self;
        let (base, run) = next_run(base, step);
        let taken = run.and_then(|run| run.into_iter().next().1);
        (StepBySeq { base, step }, taken)
    }

    #[tactic(auto, using(crate::proofs::Cutting::length_stepped))]
    fn len(&self) -> usize {
        self.base.len().div_ceil(self.step)
    }
}

impl<P: Producer> BackCursor for StepBySeq<P> {
    // One text for both ends would take the cut as a parameter, and its contract what the cut answers.
    #[tactic(auto, using(crate::proofs::Cutting::firsts_append))]
    fn next_back(self) -> (StepBySeq<P>, Option<P::Item>) {
        let StepBySeq { base, step } = self;
        let (base, run) = next_back_run(base, step);
        let taken = run.and_then(|run| run.into_iter().next().1);
        (StepBySeq { base, step }, taken)
    }
}
