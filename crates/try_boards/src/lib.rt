//! Both boards tried together: made after their first test, and driven by the same orders.
#![tactic(auto)]

#[cfg(test)]
mod driving;
pub mod lending;
#[cfg(test)]
mod tests;

ghost use Rattle.std.specs.Prelude.{◌≡◌, None};

use board::{Board, Level};
use entry::Side;
use grid::Grid;
use ladder::Ladder;
use ladder::records::{BuyLevel, SellLevel};

/// The best buy of a new ladder: there is none.
pub fn new_ladder(buys: &mut [BuyLevel], sells: &mut [SellLevel]) -> Option<Level>
    ensures answer { result ≡ None }
{
    Ladder::test(buys.len(), sells.len()).ok()?;
    let ladder = Ladder::new(buys, sells);
    ladder.best(Side::Buy)
}

/// The best sell of a new grid: there is none.
pub fn new_grid(start: u32) -> Option<Level>
    ensures answer { result ≡ None }
{
    Grid::test(start).ok()?;
    let grid = Grid::new(start);
    grid.best(Side::Sell)
}
