// A level, and what an order more or less makes of it.
ghost use Rattle.std.specs.Prelude.{◌≡◌};
ghost use Rattle.board.specs.Levels.{new_level, more_answer, less_answer};

use crate::faults::BoardFault;

/// The greatest number of orders of a level.
pub const MOST_ORDERS: u16 = 65_535;

/// What stands at a price of a side: how many orders, 1 to 65,535, and since when.
#[derive(Clone, Copy, PartialEq, Eq, Debug, Default)]
pub struct Level {
    pub price: u32,
    pub orders: u16,
    pub since: u32,
}

impl Level {
    /// A new level, of one order.
    pub fn new(price: u32, time: u32) -> Level
        ensures answer { result ≡ new_level price time }
    {
        Level {
            price,
            orders: 1,
            since: time,
        }
    }

    /// The level with one order more, which keeps its time. A full level refuses.
    pub fn one_more(self) -> Result<Level, BoardFault>
        ensures answer { result ≡ more_answer self }
    {
        // Not by `checked_add`, since the greatest number is a rule of its own, and no limit of the type.
        if self.orders >= MOST_ORDERS {
            return Err(BoardFault::LevelFull);
        }
        Ok(Level {
            orders: self.orders + 1,
            ..self
        })
    }

    /// The level with one order less, or none where that was its last.
    pub fn one_less(self) -> Option<Level>
        ensures answer { result ≡ less_answer self }
    {
        if self.orders <= 1 {
            return None;
        }
        Some(Level {
            orders: self.orders - 1,
            ..self
        })
    }
}
