// The trait Folder, which judges the items of one part.
ghost use Rattle.std.specs.Prelude.{◌≡◌, ℕ, ◌+◌, ◌≤◌, Bool, true, List, [], ◌∷◌, ◌++◌, vec_len};
ghost use Rattle.plumbing.specs.declared.board.Board.{Board};
ghost use Rattle.plumbing.specs.Histories.{Over, Sames, Twin, Alike, Keeps};

use crate::board::Board;

// A folder is fed one item at a time, and completed to the result of its part. Its verdict is one
// answer for each list; its relations say what it holds of any history h, though it keeps none.
pub trait Folder: Drop {
    type Item: Copy;

    type Slot;

    type Result: Copy;

    // The folder and the board after an item.
    ghost step: { Self → Board Self.Slot → Self.Item → Self × Board Self.Slot };
    // Whether it says full.
    ghost filled: { Self → Board Self.Slot → Bool };
    // What it completes to.
    ghost completed: { Self → Board Self.Slot → Self.Result };

    ghost Answer: { Type 0 };

    ghost verdict: { Self → List Self.Item → Answer };
    // No continuation tells the two histories apart.
    ghost Same: { Self → List Self.Item → List Self.Item → Type 0 };
    // The most items that it may take.
    ghost room: { Self → ℕ };
    // It was opened after h, and g has passed by since.
    ghost Open: { Self → Board Self.Slot → List Self.Item → List Self.Item → Type 0 };
    // Its part and all to the left of it have h behind them.
    ghost Fed: { Self → Board Self.Slot → List Self.Item → Type 0 };
    // A result stands for the stretch g that follows h.
    ghost Covers: { Self → Self.Result → Board Self.Slot → List Self.Item → List Self.Item → Type 0 };

    fn consume(self, board: &mut Board<Self::Slot>, item: Self::Item) -> Self
        ensures exact { (result ≡ (step self board.old item).0) × (board.new ≡ (step self board.old item).1) }
        ensures count { vec_len board.new.slots ≡ vec_len board.old.slots }
        ensures room { room self ≤ room result + 1 }
        ensures opens { (h g : List Self.Item) → 1 ≤ room self → Open self board.old h g → Open result board.new h (g ++ (item ∷ [])) }
        ensures keeps { (h g : List Self.Item) → 1 ≤ room self → Open self board.old h g → Keeps (Covers self) board.old board.new h }
        ensures fed { (b : Board Self.Slot) (h : List Self.Item) → Fed result b h → Fed self b h }
        ensures covers { Alike (Covers result) (Covers self) }
        ensures same { Twin (Same result) (Same self) };

    fn complete(self, board: &Board<Self::Slot>) -> Self::Result
        ensures { result ≡ completed self board.now };

    // Once it says full, whatever follows is the same.
    fn full(&self, board: &Board<Self::Slot>) -> bool
        ensures exact { result ≡ filled self.now board.now }
        ensures over { result ≡ true → (h g : List Self.Item) → Open self.now board.now h g → Over (Same self.now) (h ++ g) };

    ghost sames: { (f : Self) → Sames (Same f) };

    ghost says: { (f : Self) (h k : List Self.Item) → Same f h k → verdict f h ≡ verdict f k };

    ghost opens: { (f : Self) (b : Board Self.Slot) (h k g : List Self.Item) → Same f h k → Open f b h g → Open f b k g };

    ghost stretches: { (f : Self) (b : Board Self.Slot) (h g k : List Self.Item) → Same f (h ++ g) (h ++ k) → Open f b h g → Open f b h k };

    ghost passed: { (f : Self) (b : Board Self.Slot) (h g : List Self.Item) → Open f b h g → Fed f b (h ++ g) };

    ghost covered: { (f : Self) (b : Board Self.Slot) (h g : List Self.Item) → Open f b h g → Covers f (completed f b) b h g };

    // What it completes to is the same on every board.
    ghost late: { (f : Self) (b d : Board Self.Slot) → completed f b ≡ completed f d };
}
