// Feeds a cursor's items to a folder.
ghost use Rattle.plumbing.specs.Feeding.{FedAll};

use crate::board::Board;
use crate::cursor::Cursor;
use crate::folder::Folder;

// Feeds the folder the items that remain, from the front, until it is full or nothing remains.
pub fn fold_cursor<K: Cursor, F: Folder<Item = K::Item>>(
    mut cursor: K,
    mut folder: F,
    board: &mut Board<F::Slot>,
) -> F
    ensures { FedAll F.Folder folder result board.old board.new (K.remaining cursor) }
{
    'feed: while !folder.full(board) {
        let (rest, taken) = cursor.next();
        cursor = rest;
        let Some(item) = taken else {
            return folder;
        };
        folder = folder.consume(board, item);
    }
    folder
}
