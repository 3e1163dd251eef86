// A producer's items with a separator between neighbours.
ghost use Rattle.std.specs.Prelude.{◌≡◌, ◌^◌, ◌<◌, false, length};
ghost use Rattle.plumbing.specs.Cursors.{left_in};
ghost use Rattle.plumbing.specs.Makers.{Outcome, OverOne};
ghost use Rattle.plumbing.specs.Refusals.{overlong};
ghost use Rattle.spacing.specs.Intersperse.{interspersed, framed, width};
ghost use Rattle.spacing.specs.Seams.{Seamed};

use plumbing::board::Board;
use plumbing::cursor::{BackCursor, Cursor};
use plumbing::fold::fold_cursor;
use plumbing::folder::Folder;
use plumbing::fuse::Fuse;
use plumbing::producer::{Listed, Producer};
use plumbing::refusal::{Giver, Reason, Refusal, refuse_if};

// The base's items with one separator between neighbours; before them one more if `clone_first`,
// and after them one more if `clone_last`.
#[derive(Drop)]
pub struct IntersperseProducer<P: Listed> {
    base: P,
    item: P::Item,
    clone_first: bool,
    clone_last: bool,
    ghost fits: { width clone_first (length (P.items base)) clone_last < 2 ^ 64 },
}

// The items with the separator between neighbours. It is refused where they would pass 2^64 - 1 items.
#[tactic(auto, using(crate::proofs::Interspersing::length_interspersed, crate::proofs::Interspersing::framed_bare))]
pub fn intersperse<P: Producer>(
    base: Result<P, Refusal>,
    item: P::Item,
) -> Result<IntersperseProducer<P>, Refusal>
    ensures { OverOne base (λ p. Outcome (overlong Giver.Intersperse (length (interspersed item (P.items p))))
        (λ x. (x.base ≡ p) × (x.item ≡ item) × (x.clone_first ≡ false) × (x.clone_last ≡ false)
        × (framed x.item x.clone_first (P.items x.base) x.clone_last ≡ interspersed item (P.items p)))) result }
{
    let base = base?;
    // n items take n - 1 separators
    refuse_if(
        base.len() > usize::MAX / 2 + 1,
        Reason::Overlong,
        Giver::Intersperse,
    )?;
    Ok(IntersperseProducer {
        base,
        item,
        clone_first: false,
        clone_last: false,
    })
}

// How many there are in all, or 2^64 - 1 where they are more.
fn spaced_len(len: usize, first: bool, last: bool) -> usize
    ensures { width first len last < 2 ^ 64 → result ≡ width first len last }
{
    len.saturating_add(len.saturating_sub(1))
        .saturating_add(usize::from(first))
        .saturating_add(usize::from(last))
}

// How many items of the base go to the left part of a cut, and the ends of the two parts.
#[derive(Clone, Copy)]
struct Seam {
    base: usize,
    left_first: bool,
    left_last: bool,
    right_first: bool,
    right_last: bool,
}

// Where a cut falls among the items and the separators.
fn find_seam(index: usize, len: usize, first: bool, last: bool) -> Seam
    ensures { Seamed index len first last result }
{
    let lead = usize::from(first);
    if index < lead {
        // before the leading separator
        return Seam {
            base: 0,
            left_first: false,
            left_last: false,
            right_first: first,
            right_last: last,
        };
    }
    let inner = index - lead;
    if inner == 0 {
        // after it
        return Seam {
            base: 0,
            left_first: first,
            left_last: false,
            right_first: false,
            right_last: last,
        };
    }
    let odd = inner % 2;
    let base = inner / 2 + odd;
    if base > len {
        // at the end, where there are no items
        Seam {
            base: len,
            left_first: first,
            left_last: last,
            right_first: false,
            right_last: false,
        }
    } else if base == len {
        // before the trailing separator, or at the end
        let before = odd == 1;
        Seam {
            base,
            left_first: first,
            left_last: !before && last,
            right_first: false,
            right_last: before && last,
        }
    } else {
        // between two items, before their separator or after it
        let before = odd == 1;
        Seam {
            base,
            left_first: first,
            left_last: !before,
            right_first: before,
            right_last: last,
        }
    }
}

impl<P: Listed> Listed for IntersperseProducer<P> {
    type Item = P::Item;

    ghost items = { λ s. framed s.item s.clone_first (P.items s.base) s.clone_last };
}

impl<P: Producer> Producer for IntersperseProducer<P> {
    type IntoIter = IntersperseIter<P::IntoIter>;

    ghost least = { λ s. P.least s.base };

    ghost most = { λ s. P.most s.base };

    fn into_iter(self) -> IntersperseIter<P::IntoIter> {
        IntersperseIter {
            base: Fuse::new(self.base.into_iter()),
            item: self.item,
            clone_first: self.clone_first,
            clone_last: self.clone_last,
        }
    }

    fn min_len(&self) -> usize {
        self.base.min_len()
    }

    fn max_len(&self) -> usize {
        self.base.max_len()
    }

    #[tactic(auto, using(crate::proofs::Interspersing::length_framed))]
    fn len(&self) -> usize {
        spaced_len(self.base.len(), self.clone_first, self.clone_last)
    }

    fn split_at(self, index: usize) -> (IntersperseProducer<P>, IntersperseProducer<P>) {
        let index = index.min(self.len());
        let IntersperseProducer {
            base,
            item,
            clone_first,
            clone_last,
        } = self;
        let seam = find_seam(index, base.len(), clone_first, clone_last);
        let (left, right) = base.split_at(seam.base);
        (
            IntersperseProducer {
                base: left,
                item,
                clone_first: seam.left_first,
                clone_last: seam.left_last,
            },
            IntersperseProducer {
                base: right,
                item,
                clone_first: seam.right_first,
                clone_last: seam.right_last,
            },
        )
    }

    fn fold_with<F: Folder<Item = P::Item>>(self, folder: F, board: &mut Board<F::Slot>) -> F {
        fold_cursor(self.into_iter(), folder, board)
    }
}

#[derive(Drop)]
pub struct IntersperseIter<K: Cursor> {
    base: Fuse<K>,
    item: K::Item,
    clone_first: bool,
    clone_last: bool,
    ghost fits: { width clone_first (length (left_in K.remaining base)) clone_last < 2 ^ 64 },
}

impl<K: Cursor> Cursor for IntersperseIter<K> {
    type Item = K::Item;

    ghost remaining = { λ s. framed s.item s.clone_first (left_in K.remaining s.base) s.clone_last };

    fn next(self) -> (IntersperseIter<K>, Option<K::Item>) {
        let IntersperseIter {
            base,
            item,
            clone_first,
            clone_last,
        } = self;
        if clone_first {
            return (
                IntersperseIter {
                    base,
                    item,
                    clone_first: false,
                    clone_last,
                },
                Some(item),
            );
        }
        let (base, taken) = base.next();
        match taken {
            Some(first) => {
                // if any items are left, a separator is due before them
                let clone_first = base.len() != 0;
                (
                    IntersperseIter {
                        base,
                        item,
                        clone_first,
                        clone_last,
                    },
                    Some(first),
                )
            }
            None => (
                IntersperseIter {
                    base,
                    item,
                    clone_first: false,
                    clone_last: false,
                },
                clone_last.then_some(item),
            ),
        }
    }

    #[tactic(auto, using(crate::proofs::Interspersing::length_framed))]
    fn len(&self) -> usize {
        spaced_len(self.base.len(), self.clone_first, self.clone_last)
    }
}

// It mirrors `next`. One text for both ends would choose each field by a flag.
impl<K: BackCursor> BackCursor for IntersperseIter<K> {
    fn next_back(self) -> (IntersperseIter<K>, Option<K::Item>) {
        let IntersperseIter {
            base,
            item,
            clone_first,
            clone_last,
        } = self;
        if clone_last {
            return (
                IntersperseIter {
                    base,
                    item,
                    clone_first,
                    clone_last: false,
                },
                Some(item),
            );
        }
        let (base, taken) = base.next_back();
        match taken {
            Some(last) => {
                // if any items are left, a separator is due behind them
                let clone_last = base.len() != 0;
                (
                    IntersperseIter {
                        base,
                        item,
                        clone_first,
                        clone_last,
                    },
                    Some(last),
                )
            }
            None => (
                IntersperseIter {
                    base,
                    item,
                    clone_first: false,
                    clone_last: false,
                },
                clone_first.then_some(item),
            ),
        }
    }
}
