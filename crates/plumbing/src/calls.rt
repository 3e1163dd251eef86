// The public calls on any producer.
ghost use Rattle.std.specs.Prelude.{◌≡◌, length};
ghost use Rattle.plumbing.specs.Cuts.{Splits};

use crate::producer::Producer;
use crate::refusal::{Giver, Reason, Refusal, refuse_if};

// How many items a producer has.
pub fn producer_len<P: Producer>(producer: &P) -> usize
    ensures { result ≡ length (P.items producer.now) }
{
    producer.len()
}

// The first items of a producer, as many as the index says, and the rest. Past the end it is refused.
pub fn split_producer<P: Producer>(producer: P, index: usize) -> Result<(P, P), Refusal>
    ensures { Splits P.Listed producer index result }
{
    refuse_if(index > producer.len(), Reason::Cut, Giver::Split)?;
    Ok(producer.split_at(index))
}

// The cursor over a producer's items.
pub fn open_cursor<P: Producer>(producer: P) -> P::IntoIter
    ensures { P.IntoIter.remaining result ≡ P.items producer }
{
    producer.into_iter()
}
