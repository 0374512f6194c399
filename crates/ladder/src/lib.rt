//! The ladder: a board over all prices, each side best first on a shelf of records handed over.
#![tactic(auto)]

pub mod calls;
mod one_side;
pub mod records;

ghost use Rattle.std.specs.Prelude.{◌≡◌, true};
ghost use Rattle.ladder.specs.Counts.{counts_fit};
ghost use Rattle.ladder.specs.Standing.{side_room};

use one_side::OneSide;
use records::{BuyLevel, SellLevel};

/// A board over all prices. As many levels a side may stand on it as it was handed records for the side.
#[derive(Drop)]
pub struct Ladder<'a> {
    buys: OneSide<'a, BuyLevel>,
    sells: OneSide<'a, SellLevel>,
    ghost counts: { counts_fit (side_room buys) (side_room sells) ≡ true },
}
