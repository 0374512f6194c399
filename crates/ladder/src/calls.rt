// The ladder's first test, its making, and its calls as a board.
ghost use Rattle.std.specs.Prelude.{◌≡◌, [], ◌∷◌, length, take, Ok};
ghost use Rattle.board.specs.Book.{empty_book};
ghost use Rattle.ladder.specs.Records.{levels_in, lowest, highest};
ghost use Rattle.ladder.specs.Counts.{counts_answer};
ghost use Rattle.ladder.specs.Holding.{ladder_book, ladder_loans};

use crate::Ladder;
use crate::one_side::OneSide;
use crate::records::{BuyLevel, SellLevel};
use board::{Board, BoardFault, Level};
use entry::Side;
use entry::refusals::Refusal;

/// The least number of records a side.
pub const FEWEST: usize = 16;

/// The greatest number of records a side.
pub const MOST: usize = 4_096;

impl<'a> Ladder<'a> {
    /// The first test: whether so many records of each side can make a ladder.
    pub fn test(buys: usize, sells: usize) -> Result<(), Refusal>
        ensures answer { result ≡ counts_answer buys sells }
    {
        if (FEWEST..=MOST).contains(&buys) && sells == buys {
            Ok(())
        } else {
            Err(Refusal::OutOfRange)
        }
    }

    /// An empty ladder over the records handed over, whose numbers have passed the test.
    pub fn new(buys: &'a mut [BuyLevel], sells: &'a mut [SellLevel]) -> Self
        requires { counts_answer (length buys.old) (length sells.old) ≡ Ok tt }
        ensures answer { ladder_book result ≡ empty_book lowest highest (length buys.old) }
        ensures lent { (result.buys.shelf.records ≡ buys.entry) × (result.sells.shelf.records ≡ sells.entry) }
    {
        let buys = OneSide::new(buys);
        let sells = OneSide::new(sells);
        Ladder { buys, sells }
    }

    /// Ends the ladder and hands the records back: the first of each side hold its levels, best first.
    pub fn into_records(self) -> (&'a mut [BuyLevel], &'a mut [SellLevel])
        ensures buys { take (length (ladder_book self.entry).buys) (levels_in result.0.now) ≡ (ladder_book self.entry).buys }
        ensures sells { take (length (ladder_book self.entry).sells) (levels_in result.1.now) ≡ (ladder_book self.entry).sells }
        ensures most { (length result.0.now ≡ (ladder_book self.entry).room) × (length result.1.now ≡ (ladder_book self.entry).room) }
        ensures lent { result.0.ghost_name ∷ result.1.ghost_name ∷ [] ≡ ladder_loans self.entry }
    {
        let Ladder { buys, sells } = self;
        (buys.into_records(), sells.into_records())
    }
}

// Each call matches on the side, since the two shelves are of two types, so that no record can get to the other side.
impl Board for Ladder<'_> {
    ghost book = { ladder_book };

    ghost loans = { ladder_loans };

    fn vouch(&self) {}

    fn best(&self, side: Side) -> Option<Level> {
        match side {
            Side::Buy => self.buys.best(),
            Side::Sell => self.sells.best(),
        }
    }

    fn at(&self, side: Side, price: u32) -> Option<Level> {
        match side {
            Side::Buy => self.buys.at(price),
            Side::Sell => self.sells.at(price),
        }
    }

    fn next(&self, side: Side, price: u32) -> Option<Level> {
        match side {
            Side::Buy => self.buys.next(price),
            Side::Sell => self.sells.next(price),
        }
    }

    fn add(&mut self, side: Side, price: u32, time: u32) -> Result<(), BoardFault> {
        match side {
            Side::Buy => self.buys.add(price, time),
            Side::Sell => self.sells.add(price, time),
        }
    }

    fn take(&mut self, side: Side, price: u32) -> Result<(), BoardFault> {
        match side {
            Side::Buy => self.buys.take(price),
            Side::Sell => self.sells.take(price),
        }
    }
}
