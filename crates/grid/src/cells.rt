// A cell of the grid, and the level that it holds.
ghost use Rattle.std.specs.Prelude.{◌≡◌, ◌==◌};
ghost use Rattle.grid.specs.Ranks.{seen, holding};

use board::Level;

// What a price of a side holds: no order, or the orders of a level and since when it stands.
// The number 0 says that no level stands, since a board is fixed memory: with a tag of its own an `Option<Cell>` has 12 bytes and not 8,
// which is 3,072 for the 256 cells of a side and not 2,048. An `Option` of the orders alone keeps to 8, but leaves a time where no
// level stands, so it is no plainer.
#[derive(Clone, Copy, Default)]
pub struct Cell {
    pub orders: u16,
    pub since: u32,
}

impl Cell {
    // Whether no level stands.
    pub fn is_empty(self) -> bool
        ensures { result ≡ (self.orders == 0) }
    {
        self.orders == 0
    }

    // What stands, as a level at a price, or none.
    pub fn level(self, price: u32) -> Option<Level>
        ensures { result ≡ seen price self }
    {
        if self.is_empty() {
            return None;
        }
        Some(Level {
            price,
            orders: self.orders,
            since: self.since,
        })
    }
}

impl From<Level> for Cell {
    ghost from_gives = { λ level result. result ≡ holding level };

    // The cell of a price at which a level stands.
    fn from(level: Level) -> Cell {
        Cell {
            orders: level.orders,
            since: level.since,
        }
    }
}
