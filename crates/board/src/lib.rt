//! What a board is to all that use one: its calls, what they answer and leave, and what holds of every board.
#![tactic(auto)]

pub mod faults;
pub mod levels;
pub mod listing;
pub mod standing;

ghost use Rattle.std.specs.Prelude.{◌≡◌, ℕ, List};
ghost use Rattle.board.specs.Book.{Book, best_of, level_at, next_after, levels_of, is_empty};
ghost use Rattle.board.specs.Calls.{add_answer, add_after, take_answer, take_after};
ghost use Rattle.board.specs.Sound.{Sound};

use entry::Side;
pub use faults::BoardFault;
pub use levels::Level;

/// A set of levels with different prices on each side, a fixed price range, and a fixed greatest number of levels a side.
/// Any price and any time may come. A call that refuses changes nothing.
pub trait Board {
    // what stands on the board, with its range and its greatest number of levels
    ghost book: { Self → Book };

    // which records the board was lent, by the names of the loans: no call gives one away for another
    ghost loans: { Self → List ℕ };

    /// Tells code over any board what holds of every board. It does nothing.
    fn vouch(&self)
        ensures { Sound (book self.now) };

    /// The best level of a side, or none.
    fn best(&self, side: Side) -> Option<Level>
        ensures answer { result ≡ best_of (book self.now) side };

    /// The level at a price, or none.
    fn at(&self, side: Side, price: u32) -> Option<Level>
        ensures answer { result ≡ level_at price (levels_of (book self.now) side) };

    /// The best level that is worse than a price, or none. From the best level on, it lists a side best first.
    /// It goes by a price and not by a number, since a board that keeps a place for each price does not number its levels.
    fn next(&self, side: Side, price: u32) -> Option<Level>
        ensures answer { result ≡ next_after side price (levels_of (book self.now) side) };

    /// One order more at a price: it joins the level there, which keeps its time, or makes a level that stands since the time.
    fn add(&mut self, side: Side, price: u32, time: u32) -> Result<(), BoardFault>
        ensures answer { result ≡ add_answer (book self.old) side price }
        ensures after { book self.new ≡ add_after (book self.old) side price time }
        ensures lent { loans self.new ≡ loans self.old };

    /// One order less at a price: a level with none left is gone.
    fn take(&mut self, side: Side, price: u32) -> Result<(), BoardFault>
        ensures answer { result ≡ take_answer (book self.old) side price }
        ensures after { book self.new ≡ take_after (book self.old) side price }
        ensures lent { loans self.new ≡ loans self.old };

    /// Whether no level stands on either side.
    fn is_empty(&self) -> bool
        ensures answer { result ≡ is_empty (book self.now) }
    {
        self.best(Side::Buy).is_none() && self.best(Side::Sell).is_none()
    }
}
