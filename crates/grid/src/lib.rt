//! The grid: a board over 256 consecutive prices, with a cell for each price and side.
#![tactic(auto)]

pub mod calls;
mod cells;
mod side_cells;

ghost use Rattle.std.specs.Prelude.{◌≡◌, true};
ghost use Rattle.grid.specs.Start.{start_fits};

use entry::sides::Sides;
use side_cells::SideCells;

// How many prices a grid has.
const PRICES: usize = 256;

/// A board over 256 consecutive prices, which may hold a level at each of them on each side.
#[derive(Drop)]
pub struct Grid {
    start: u32,
    sides: Sides<SideCells>,
    ghost within: { start_fits start ≡ true },
}
