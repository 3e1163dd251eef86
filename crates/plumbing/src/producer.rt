// The traits Listed, a list of items, and Producer, one that can be cut.
ghost use Rattle.std.specs.Prelude.{◌≡◌, ℕ, ◌≤◌, List, length, take, drop};
ghost use Rattle.plumbing.specs.Feeding.{FedAll};

use crate::board::Board;
use crate::cursor::BackCursor;
use crate::folder::Folder;

// A value that means a finite list of items. A struct with a fact on the lists of its parts has this bound on
// them: with the bound Producer their cursors would be part of its type, and of a caller that has a source over a
// slice in such a struct the checker would make no proof.
pub trait Listed: Drop {
    type Item: Copy;

    ghost items: { Self → List Self.Item };
}

// A list of items that can be cut, and read by a cursor.
pub trait Producer: Listed + Sized {
    type IntoIter: BackCursor<Item = Self::Item>;

    // The length below which it asks not to be cut.
    ghost least: { Self → ℕ };
    // The length above which it asks to be cut.
    ghost most: { Self → ℕ };

    fn into_iter(self) -> Self::IntoIter
        ensures { Self.IntoIter.remaining result ≡ Self.items self };

    fn min_len(&self) -> usize
        ensures { result ≡ least self.now };

    fn max_len(&self) -> usize
        ensures { result ≡ most self.now };

    fn len(&self) -> usize
        ensures { result ≡ length (Self.items self.now) };

    // The first items, as many as the index says, and the rest. Past the end nothing is asked of a source.
    fn split_at(self, index: usize) -> (Self, Self)
        ensures left { index ≤ length (Self.items self) → Self.items result.0 ≡ take index (Self.items self) }
        ensures right { index ≤ length (Self.items self) → Self.items result.1 ≡ drop index (Self.items self) };

    // Feeds the items to a folder, from the front, and stops early only when the folder is full. It has no body here:
    // the port writes out what its source leaves to a default.
    fn fold_with<F: Folder<Item = Self::Item>>(self, folder: F, board: &mut Board<F::Slot>) -> F
        ensures { FedAll F.Folder folder result board.old board.new (Self.items self) };
}
