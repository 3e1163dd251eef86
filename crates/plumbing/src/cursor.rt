// The traits Cursor and BackCursor, which read a producer's items one at a time.
ghost use Rattle.std.specs.Prelude.{◌≡◌, List, length};
ghost use Rattle.plumbing.specs.Cursors.{Front, Back};

// A cursor means the list of the items that remain. A taking gives the cursor back beside its answer.
pub trait Cursor: Drop {
    type Item: Copy;

    // The items that remain.
    ghost remaining: { Self → List Self.Item };

    // The first item that remains, or none when nothing remains.
    fn next(self) -> (Self, Option<Self::Item>)
        ensures { Front (remaining self) result.1 (remaining result.0) };

    // How many remain.
    fn len(&self) -> usize
        ensures { result ≡ length (remaining self.now) };
}

// A cursor that also takes from the end.
pub trait BackCursor: Cursor {
    // The last item that remains, or none when nothing remains.
    fn next_back(self) -> (Self, Option<Self::Item>)
        ensures { Back (Self.remaining self) result.1 (Self.remaining result.0) };
}
