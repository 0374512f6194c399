// One side of a ladder.
pub mod calls;

ghost use Rattle.std.specs.Prelude.{◌≡◌, true, map};
ghost use Rattle.shelf.specs.Standing.{live};
ghost use Rattle.ladder.specs.Records.{all_proper};

use crate::records::LevelRecord;
use shelf::Shelf;

/// The levels of one side, best first, on a shelf of records handed over.
// Its parameter is the kind of record: with the bool of a side instead, the borrow checker refuses each call that writes.
#[derive(Drop)]
pub struct OneSide<'a, R: LevelRecord> {
    shelf: Shelf<'a, R>,
    ghost proper: { all_proper (map R.LevelRecord.level (live shelf)) ≡ true },
}
