// Cuts of a producer between its runs. The producer and the size are no struct of their own, since the
// adaptors keep the fields of their source.
ghost use Rattle.std.specs.Prelude.{◌≡◌, ◌/◌, ◌≤◌, length, take, drop, IfSome, option_map};
ghost use Rattle.plumbing.specs.Cursors.{Front, Back};
ghost use Rattle.grouping.specs.Cuts.{FirstRun, LastRun};
ghost use Rattle.grouping.specs.Runs.{chunked, run_count};

use plumbing::producer::Producer;

// How many runs so many items make, a shorter last one counted.
pub fn count_runs(len: usize, size: usize) -> usize
    ensures { 1 ≤ size → result ≡ run_count len size }
{
    if size == 0 { 0 } else { len.div_ceil(size) }
}

// How many runs of the full size so many items hold.
pub fn count_full_runs(len: usize, size: usize) -> usize
    ensures { 1 ≤ size → result ≡ len / size }
{
    len.checked_div(size).unwrap_or(0)
}

// The first k runs, or all where there are fewer, and the others.
pub fn cut_runs<P: Producer>(base: P, size: usize, k: usize) -> (P, P)
    ensures left { 1 ≤ size → chunked size (P.items result.0) ≡ take k (chunked size (P.items base)) }
    ensures right { 1 ≤ size → chunked size (P.items result.1) ≡ drop k (chunked size (P.items base)) }
{
    let at = k.saturating_mul(size).min(base.len());
    base.split_at(at)
}

// The first run, and what follows it.
pub fn first_run<P: Producer>(base: P, size: usize) -> (P, P)
    ensures { 1 ≤ size → 1 ≤ length (P.items base) → FirstRun P.Listed size base result }
{
    let at = size.min(base.len());
    base.split_at(at)
}

// What stands before the last run, and the last run.
pub fn last_run<P: Producer>(base: P, size: usize) -> (P, P)
    ensures { 1 ≤ size → 1 ≤ length (P.items base) → LastRun P.Listed size base result }
{
    let len = base.len();
    if len == 0 || size == 0 {
        return base.split_at(0);
    }
    // the full runs that stand before the last item
    let whole = (len - 1) / size;
    base.split_at(whole * size)
}

// What follows the first run, and the first run, or none where there are no items.
pub(crate) fn next_run<P: Producer>(base: P, size: usize) -> (P, Option<P>)
    ensures taken { 1 ≤ size →
        Front (chunked size (P.items base)) (option_map P.items result.1) (chunked size (P.items result.0)) }
    ensures some { 1 ≤ size → IfSome result.1 (λ run. 1 ≤ length (P.items run)) }
{
    if base.len() == 0 {
        return (base, None);
    }
    let (run, rest) = first_run(base, size);
    (rest, Some(run))
}

// What stands before the last run, and the last run, or none where there are no items.
pub(crate) fn next_back_run<P: Producer>(base: P, size: usize) -> (P, Option<P>)
    ensures taken { 1 ≤ size →
        Back (chunked size (P.items base)) (option_map P.items result.1) (chunked size (P.items result.0)) }
    ensures some { 1 ≤ size → IfSome result.1 (λ run. 1 ≤ length (P.items run)) }
{
    if base.len() == 0 {
        return (base, None);
    }
    let (rest, run) = last_run(base, size);
    (rest, Some(run))
}
