// The grid's first test, its making, and its calls as a board.
ghost use Rattle.std.specs.Prelude.{◌≡◌, ◌+◌, false, [], drop, MatchOption, slice_set};
ghost use Rattle.board.specs.Book.{empty_book, with_levels, first};
ghost use Rattle.grid.specs.Start.{start_answer};
ghost use Rattle.grid.specs.Ranks.{cell_at, first_of, levels, price_at, ranks_to, in_range};
ghost use Rattle.grid.specs.Holding.{grid_book, cells_of};

use crate::cells::Cell;
use crate::side_cells::SideCells;
use crate::{Grid, PRICES};
use board::{Board, BoardFault, Level};
use entry::Side;
use entry::refusals::Refusal;
use entry::sides::Sides;

/// The lowest price at which a grid may start.
pub const FIRST_START: u32 = 1;

/// The highest price at which a grid may start.
pub const LAST_START: u32 = 999_999_745;

impl Grid {
    /// The first test: whether a grid may start at this price.
    pub fn test(start: u32) -> Result<(), Refusal>
        ensures answer { result ≡ start_answer start }
    {
        if (FIRST_START..=LAST_START).contains(&start) {
            Ok(())
        } else {
            Err(Refusal::OutOfRange)
        }
    }

    /// An empty grid from a start on that has passed the test.
    pub fn new(start: u32) -> Self
        requires { start_answer start ≡ Ok tt }
        ensures answer { grid_book result ≡ empty_book start (start + 255) 256 }
    {
        Grid {
            start,
            sides: Sides {
                buy: SideCells::new(),
                sell: SideCells::new(),
            },
        }
    }

    // The rank of a price, best first, if the price is in the range. Buys are counted from the highest price down, here and in `price`
    // and `ranks_to`: one function for that would need a definition of its own beside `price_at`.
    fn rank(&self, side: Side, price: u32) -> Option<u8>
        ensures { MatchOption result (in_range self.now.start price ≡ false) (λ i. price ≡ price_at side self.now.start i) }
    {
        let up = u8::try_from(price.checked_sub(self.start)?).ok()?;
        Some(match side {
            Side::Buy => u8::MAX - up,
            Side::Sell => up,
        })
    }

    // How many ranks are as good as a price or better; past 256, all of them.
    fn ranks_to(&self, side: Side, price: u32) -> u32
        ensures { result ≡ ranks_to side self.now.start price }
    {
        match side {
            Side::Buy => (self.start + PRICES as u32).saturating_sub(price),
            Side::Sell => price.saturating_sub(self.start - 1),
        }
    }

    // The price of a rank.
    fn price(&self, side: Side, rank: u8) -> u32
        ensures { result ≡ price_at side self.now.start rank }
    {
        match side {
            Side::Buy => self.start + u32::from(u8::MAX - rank),
            Side::Sell => self.start + u32::from(rank),
        }
    }

    // The cell of a side at a rank.
    fn get(&self, side: Side, rank: u8) -> Cell
        ensures { result ≡ cell_at (cells_of side self.now) rank }
    {
        self.sides.of(side).get(rank)
    }

    // Stores a cell of a side at a rank.
    fn put(&mut self, side: Side, rank: u8, cell: Cell)
        ensures { grid_book self.new ≡ with_levels (grid_book self.old) side (levels side self.old.start 0 (slice_set (cells_of side self.old) rank cell)) }
    {
        self.sides.of_mut(side).put(rank, cell);
    }

    // The best level of a side from a rank on.
    fn best_from(&self, side: Side, from: u8) -> Option<Level>
        ensures { result ≡ first (levels side self.now.start from (drop from (cells_of side self.now))) }
    {
        let rank = self.sides.of(side).first_from(from)?;
        // The rank that was found has a level, so its orders are not tested again.
        let Cell { orders, since } = self.get(side, rank);
        Some(Level {
            price: self.price(side, rank),
            orders,
            since,
        })
    }
}

impl Board for Grid {
    ghost book = { grid_book };

    ghost loans = { λ _. [] };

    fn vouch(&self) {}

    fn best(&self, side: Side) -> Option<Level> {
        self.best_from(side, 0)
    }

    fn at(&self, side: Side, price: u32) -> Option<Level> {
        let rank = self.rank(side, price)?;
        self.get(side, rank).level(price)
    }

    fn next(&self, side: Side, price: u32) -> Option<Level> {
        let from = u8::try_from(self.ranks_to(side, price)).ok()?;
        self.best_from(side, from)
    }

    fn add(&mut self, side: Side, price: u32, time: u32) -> Result<(), BoardFault> {
        let rank = self.rank(side, price).ok_or(BoardFault::NoPlace)?;
        let level = match self.get(side, rank).level(price) {
            Some(level) => level.one_more()?,
            None => Level::new(price, time),
        };
        self.put(side, rank, Cell::from(level));
        Ok(())
    }

    fn take(&mut self, side: Side, price: u32) -> Result<(), BoardFault> {
        let rank = self.rank(side, price).ok_or(BoardFault::NothingThere)?;
        let cell = self.get(side, rank);
        let level = cell.level(price).ok_or(BoardFault::NothingThere)?;
        let left = level.one_less().map_or(Cell::default(), Cell::from);
        self.put(side, rank, left);
        Ok(())
    }
}
