// The levels of a side, taken one after another.
ghost use Rattle.std.specs.Prelude.{◌≡◌};
ghost use Rattle.std.specs.Iterator.{YieldsFirst, item_count};
ghost use Rattle.board.specs.Book.{levels_of};
ghost use Rattle.board.specs.Standing.{ahead};

use crate::Board;
use crate::levels::Level;
use entry::Side;

/// The levels of a side of any board that are left, best first.
#[derive(Clone, Copy)]
pub struct Levels<'a, B: Board> {
    board: &'a B,
    side: Side,
    first: Option<Level>,
}

impl<'a, B: Board> Levels<'a, B> {
    /// All levels of a side.
    pub fn of(board: &'a B, side: Side) -> Self
        ensures made { ahead B.Board.book result ≡ levels_of (B.Board.book board.now) side }
    {
        board.vouch();
        let first = board.best(side);
        Levels { board, side, first }
    }
}

impl<B: Board> Iterator for Levels<'_, B> {
    type Item = Level;

    ghost next_gives = { YieldsFirst (ahead B.Board.book) };

    ghost remaining = { item_count (ahead B.Board.book) };

    /// Takes the best level that is left.
    fn next(&mut self) -> Option<Level> {
        self.board.vouch();
        let level = self.first?;
        self.first = self.board.next(self.side, level.price);
        Some(level)
    }
}
