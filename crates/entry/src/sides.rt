// What is said of a side, and a value for each side.
ghost use Rattle.std.specs.Prelude.{◌≡◌};
ghost use Rattle.entry.specs.Sides.{better, other_side, of_side, with_side};
ghost use Rattle.std.specs.Borrow.{Lends, sem};
ghost use Rattle.entry.specs.contracts.sides.Sides.{the_row};

use crate::Side;
use std::fmt;

impl Side {
    /// The other side.
    pub fn other(self) -> Side
        ensures answer { result ≡ other_side self }
    {
        match self {
            Side::Buy => Side::Sell,
            Side::Sell => Side::Buy,
        }
    }

    /// Whether a price is better than another: higher for a buy, lower for a sell.
    pub fn betters(self, price: u32, other: u32) -> bool
        ensures answer { result ≡ better self price other }
    {
        match self {
            Side::Buy => price > other,
            Side::Sell => price < other,
        }
    }
}

/// A value for each side.
#[derive(Clone, Copy, PartialEq, Eq, Default, Drop)]
pub struct Sides<T> {
    pub buy: T,
    pub sell: T,
}

/// A kind of value that each side has, and what the values of both sides are called where they are printed for a programmer.
pub trait OfBothSides {
    const NAME: &'static str;
}

impl<T: OfBothSides> OfBothSides for Option<T> {
    const NAME: &'static str = T::NAME;
}

// A derived Debug would call the values of any kind `Sides`.
impl<T: fmt::Debug + OfBothSides> fmt::Debug for Sides<T> {
    fn fmt<W: fmt::Write>(&self, f: &mut fmt::Formatter<W>) -> fmt::Result {
        f.debug_struct(T::NAME)
            .field("buy", &self.buy)
            .field("sell", &self.sell)
            .finish()
    }
}

impl<T> Sides<T> {
    /// The value of a side.
    pub fn of(&self, side: Side) -> &T
        ensures answer { result.now ≡ of_side self.now side }
    {
        match side {
            Side::Buy => &self.buy,
            Side::Sell => &self.sell,
        }
    }

    /// The value of a side, to be changed.
    pub fn of_mut(&mut self, side: Side) -> &mut T
        ensures* writes_back { sem 𝓛 (Lends (the_row T.row) T.row self.entry result (with_side self.old side)) }
        ensures answer { result.now ≡ of_side self.old side }
    {
        match side {
            Side::Buy => &mut self.buy,
            Side::Sell => &mut self.sell,
        }
    }
}

impl<T: Copy> Sides<T> {
    /// The values with another one for a side.
    pub fn with(mut self, side: Side, value: T) -> Self
        ensures answer { result ≡ with_side self side value }
    {
        match side {
            Side::Buy => self.buy = value,
            Side::Sell => self.sell = value,
        }
        self
    }
}
