// A cursor layer that stays at none.
ghost use Rattle.std.specs.Prelude.{◌≡◌};
ghost use Rattle.plumbing.specs.Cursors.{left_in};

use crate::cursor::{BackCursor, Cursor};

#[derive(Drop)]
pub struct Fuse<K> {
    // none once it has ended
    cursor: Option<K>,
}

impl<K: Cursor> Fuse<K> {
    pub fn new(cursor: K) -> Fuse<K>
        ensures { result ≡ record { cursor = Some cursor } }
    {
        Fuse {
            cursor: Some(cursor),
        }
    }
}

impl<K: Cursor> Cursor for Fuse<K> {
    type Item = K::Item;

    ghost remaining = { left_in K.remaining };

    fn next(self) -> (Fuse<K>, Option<K::Item>) {
        let Some(cursor) = self.cursor else {
            return (Fuse { cursor: None }, None);
        };
        let (cursor, taken) = cursor.next();
        let cursor = taken.is_some().then_some(cursor);
        (Fuse { cursor }, taken)
    }

    fn len(&self) -> usize {
        self.cursor.as_ref().map_or(0, |cursor| cursor.len())
    }
}

impl<K: BackCursor> BackCursor for Fuse<K> {
    // One text for both ends would take the taking as a parameter, and its contract what the taking answers.
    fn next_back(self) -> (Fuse<K>, Option<K::Item>) {
        let Some(cursor) = self.cursor else {
            return (Fuse { cursor: None }, None);
        };
        let (cursor, taken) = cursor.next_back();
        let cursor = taken.is_some().then_some(cursor);
        (Fuse { cursor }, taken)
    }
}
