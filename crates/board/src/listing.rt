// The levels of a side of any board, written out best first.
ghost use Rattle.std.specs.Prelude.{◌≡◌, min, length};
ghost use Rattle.board.specs.Book.{levels_of};
ghost use Rattle.board.specs.Listing.{listed};

use crate::Board;
use crate::levels::Level;
use entry::Side;

/// Writes the levels of a side, best first, as far as there is room for them, and tells how many were written.
/// What stands past them is kept.
// Into memory handed over and no `Vec`, since no heap is used while entries run.
pub fn list_levels<B: Board>(board: &B, side: Side, out: &mut [Level]) -> usize
    ensures answer { result ≡ min (length (levels_of (B.Board.book board.now) side)) (length out.old) }
    ensures after { out.new ≡ listed result (levels_of (B.Board.book board.now) side) out.old }
{
    board.vouch();
    let mut level = board.best(side);
    let room = out.len();
    // By its index, since a proof knows no element that was written through `iter_mut`.
    for i in 0..room {
        let Some(standing) = level else {
            return i;
        };
        out[i] = standing;
        level = board.next(side, standing.price);
    }
    room
}
