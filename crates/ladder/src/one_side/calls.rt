// The calls of one side of a ladder, written once for both. That a call keeps the room and the loan stands as two clauses, since the
// proofs of `Ladder` cite each by its name.
ghost use Rattle.std.specs.Prelude.{◌≡◌, [], None};
ghost use Rattle.board.specs.Book.{first, level_at, next_after};
ghost use Rattle.ladder.specs.Records.{level_of};
ghost use Rattle.ladder.specs.Sides.{side_of};
ghost use Rattle.ladder.specs.OneSide.{level_in, add_answer_on, add_levels, take_answer_on, take_levels};
ghost use Rattle.ladder.specs.Standing.{side_levels, side_room};

use crate::one_side::OneSide;
use crate::records::SideLevel;
use board::{BoardFault, Level};
use shelf::Shelf;

/// The lowest price of a ladder.
pub const LOWEST_PRICE: u32 = 1;

/// The highest price of a ladder.
pub const HIGHEST_PRICE: u32 = 1_000_000_000;

// The level in a record, if there is one.
fn level_in<const SELL: bool>(found: Option<SideLevel<SELL>>) -> Option<Level>
    ensures { result ≡ level_in level_of found.entry }
{
    Some(found?.0)
}

impl<'a, const SELL: bool> OneSide<'a, SideLevel<SELL>> {
    /// A side with no level, over the records handed over.
    pub fn new(records: &'a mut [SideLevel<SELL>]) -> Self
        ensures levels { side_levels result ≡ [] }
        ensures lent { result.shelf.records ≡ records.entry }
    {
        let shelf = Shelf::new(records);
        OneSide { shelf }
    }

    /// Ends the side and hands the records back.
    pub fn into_records(self) -> &'a mut [SideLevel<SELL>]
        ensures { result ≡ self.entry.shelf.records }
    {
        let OneSide { shelf } = self;
        shelf.into_records()
    }

    /// The best level.
    pub fn best(&self) -> Option<Level>
        ensures { result ≡ first (side_levels self.now) }
    {
        level_in(self.shelf.first())
    }

    /// The level at a price.
    pub fn at(&self, price: u32) -> Option<Level>
        ensures { result ≡ level_at price (side_levels self.now) }
    {
        // With `ok()?` the check leaves both of its ends open.
        match self.shelf.find(price) {
            Ok(at) => level_in(self.shelf.get(at)),
            Err(_) => None,
        }
    }

    /// The best level that is worse than a price.
    pub fn next(&self, price: u32) -> Option<Level>
        ensures { result ≡ next_after (side_of SELL) price (side_levels self.now) }
    {
        level_in(self.shelf.after(price))
    }

    /// One order more at a price.
    pub fn add(&mut self, price: u32, time: u32) -> Result<(), BoardFault>
        ensures answer { result ≡ add_answer_on (side_room self.old) price (side_levels self.old) }
        ensures levels { side_levels self.new ≡ add_levels (side_of SELL) (side_room self.old) price time (side_levels self.old) }
        ensures most { side_room self.new ≡ side_room self.old }
        ensures lent { self.new.shelf.records.ghost_name ≡ self.old.shelf.records.ghost_name }
    {
        let Ok(at) = self.shelf.find(price) else {
            return self.begin(price, time);
        };
        let Some(record) = self.shelf.get(at) else {
            unreachable()
        };
        let joined = record.0.one_more()?;
        let Ok(()) = self.shelf.replace(at, SideLevel(joined)) else {
            unreachable()
        };
        Ok(())
    }

    // A new level, at a price where none stands.
    fn begin(&mut self, price: u32, time: u32) -> Result<(), BoardFault>
        requires { level_at price (side_levels self.old) ≡ None }
        ensures answer { result ≡ add_answer_on (side_room self.old) price (side_levels self.old) }
        ensures levels { side_levels self.new ≡ add_levels (side_of SELL) (side_room self.old) price time (side_levels self.old) }
        ensures most { side_room self.new ≡ side_room self.old }
        ensures lent { self.new.shelf.records.ghost_name ≡ self.old.shelf.records.ghost_name }
    {
        if !(LOWEST_PRICE..=HIGHEST_PRICE).contains(&price) {
            return Err(BoardFault::NoPlace);
        }
        // With `map_err` the check knows too little of the answer where it proves the levels.
        match self.shelf.insert(SideLevel(Level::new(price, time))) {
            Ok(()) => Ok(()),
            Err(_) => Err(BoardFault::NoPlace),
        }
    }

    /// One order less at a price.
    pub fn take(&mut self, price: u32) -> Result<(), BoardFault>
        ensures answer { result ≡ take_answer_on price (side_levels self.old) }
        ensures levels { side_levels self.new ≡ take_levels price (side_levels self.old) }
        ensures most { side_room self.new ≡ side_room self.old }
        ensures lent { self.new.shelf.records.ghost_name ≡ self.old.shelf.records.ghost_name }
    {
        let Ok(at) = self.shelf.find(price) else {
            return Err(BoardFault::NothingThere);
        };
        let Some(record) = self.shelf.get(at) else {
            unreachable()
        };
        match record.0.one_less() {
            Some(left) => {
                let Ok(()) = self.shelf.replace(at, SideLevel(left)) else {
                    unreachable()
                };
            }
            None => {
                let _ = self.shelf.remove(at);
            }
        }
        Ok(())
    }
}
