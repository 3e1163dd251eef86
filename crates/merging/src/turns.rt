// A taking from two cursors in turn.
ghost use Rattle.merging.specs.Turns.{FrontOf};

use plumbing::cursor::Cursor;

// The first item of k, or of l where k has none.
pub(crate) fn next_of<K: Cursor, L: Cursor<Item = K::Item>>(k: K, l: L) -> (K, L, Option<K::Item>)
    ensures { FrontOf (K.remaining k) (L.remaining l) result.2 (K.remaining result.0) (L.remaining result.1) }
{
    let (k, taken) = k.next();
    if taken.is_some() {
        return (k, l, taken);
    }
    let (l, other) = l.next();
    (k, l, other)
}
