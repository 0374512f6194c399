// The records of a ladder: a level of the buy side, or of the sell side, which are in order by price, best first.
ghost use Rattle.std.specs.Prelude.{◌≡◌, ℕ, refl};
ghost use Rattle.entry.specs.declared.Side.{Side};
ghost use Rattle.board.specs.declared.levels.Level.{Level};
ghost use Rattle.entry.specs.Sides.{better};
ghost use Rattle.ladder.specs.Sides.{side_of};
ghost use Rattle.ladder.specs.Records.{level_of, price_in};
ghost use Rattle.ladder.specs.Better.{better_irreflexive, better_transitive, better_total};

use board::Level;
use entry::Side;
use shelf::Record;
use std::fmt;

/// A record that holds a level of one side.
pub trait LevelRecord: Record<Key = u32> {
    // the level that the record holds
    ghost level: { Self → Level };

    // the side of all records of the kind
    ghost side: { Side };

    /// A record that holds the level.
    fn hold(held: Level) -> Self
        ensures { level result ≡ held };

    /// The level that the record holds.
    fn get_level(&self) -> Level
        ensures { result ≡ level self.now };

    ghost priced: { (x : Self) → Self.Record.key x ≡ (level x).price };

    ghost ranked: { (p q : ℕ) → Self.Record.before p q ≡ better side p q };
}

/// A record that holds a level of the sell side or else of the buy side.
// A const parameter is an integer or a bool, so a bool tells the side, and `side` gives it as a Side.
#[derive(Clone, Copy, PartialEq, Eq, Default)]
pub struct SideLevel<const SELL: bool>(pub Level);

// A derived Debug would call the records of both sides alike.
impl<const SELL: bool> fmt::Debug for SideLevel<SELL> {
    fn fmt<W: fmt::Write>(&self, f: &mut fmt::Formatter<W>) -> fmt::Result {
        let name = if SELL { "SellLevel" } else { "BuyLevel" };
        f.debug_tuple(name).field(&self.0).finish()
    }
}

/// A record of the buy side.
pub type BuyLevel = SideLevel<false>;

/// A record of the sell side.
pub type SellLevel = SideLevel<true>;

// The side that the records of a kind belong to.
fn side<const SELL: bool>() -> Side
    ensures { result ≡ side_of SELL }
{
    if SELL { Side::Sell } else { Side::Buy }
}

impl<const SELL: bool> Record for SideLevel<SELL> {
    type Key = u32;

    ghost key = { price_in };

    ghost before = { better (side_of SELL) };

    ghost irreflexive = { better_irreflexive (side_of SELL) };

    ghost transitive = { better_transitive (side_of SELL) };

    ghost total = { better_total (side_of SELL) };

    fn get_key(&self) -> u32 {
        self.0.price
    }

    fn precedes(a: u32, b: u32) -> bool {
        side::<SELL>().betters(a, b)
    }
}

impl<const SELL: bool> LevelRecord for SideLevel<SELL> {
    ghost level = { level_of };

    ghost side = { side_of SELL };

    ghost priced = { λ _. refl };

    ghost ranked = { λ _ _. refl };

    fn hold(held: Level) -> Self {
        SideLevel(held)
    }

    fn get_level(&self) -> Level {
        self.0
    }
}
