// The figures that an open and a closed day hold, in plain numbers.
ghost use Rattle.std.specs.Prelude.{◌≡◌};
ghost use Rattle.rules.specs.Readings.{reference_of};
ghost use Rattle.rules.specs.Effects.{figures_at, with_reference};

use entry::Params;
use entry::sides::{OfBothSides, Sides};
use plan::Session;
use std::fmt;

/// The level that most recently lost its last order while it was the best of its side.
#[derive(Clone, Copy, PartialEq, Eq, Debug)]
pub struct Forerunner {
    pub price: u32,
    /// The time since when it stood.
    pub since: u32,
    /// How long it stood, in milliseconds.
    pub life: u32,
}

impl OfBothSides for Forerunner {
    const NAME: &'static str = "Forerunners";
}

/// The forerunner of each side, or none.
pub type Forerunners = Sides<Option<Forerunner>>;

/// The latest reference price entered for each session in this day, or none.
#[derive(Clone, Copy, PartialEq, Eq, Debug, Default)]
pub struct References {
    pub morning: Option<u32>,
    pub main: Option<u32>,
    pub evening: Option<u32>,
    pub weekend: Option<u32>,
}

impl References {
    /// The latest reference price of a session, or none.
    pub fn of(&self, session: Session) -> Option<u32>
        ensures answer { result ≡ reference_of self.now session }
    {
        match session {
            Session::Morning => self.morning,
            Session::Main => self.main,
            Session::Evening => self.evening,
            Session::Weekend => self.weekend,
        }
    }

    /// The references with one entered for a session.
    pub fn with(mut self, session: Session, price: u32) -> References
        ensures answer { result ≡ with_reference self session price }
    {
        match session {
            Session::Morning => self.morning = Some(price),
            Session::Main => self.main = Some(price),
            Session::Evening => self.evening = Some(price),
            Session::Weekend => self.weekend = Some(price),
        }
        self
    }
}

/// A value for each direction of prices.
#[derive(Clone, Copy, PartialEq, Eq, Default, Drop)]
pub struct Directions<T> {
    pub upward: T,
    pub downward: T,
}

/// A kind of value that each direction has, and what the values of both are called where they are printed for a programmer.
pub trait OfBothDirections {
    const NAME: &'static str;
}

impl OfBothDirections for bool {
    const NAME: &'static str = "Marks";
}

impl OfBothDirections for u8 {
    const NAME: &'static str = "DaysLeft";
}

// A derived Debug would call the values of any kind `Directions`.
impl<T: fmt::Debug + OfBothDirections> fmt::Debug for Directions<T> {
    fn fmt<W: fmt::Write>(&self, f: &mut fmt::Formatter<W>) -> fmt::Result {
        f.debug_struct(T::NAME)
            .field("upward", &self.upward)
            .field("downward", &self.downward)
            .finish()
    }
}

/// Whether a trade of this day went far above, and far below, the reference of the main session.
pub type Marks = Directions<bool>;

/// For how many days, this one included, the bounds of the main session are tightened in each direction.
pub type DaysLeft = Directions<u8>;

/// What an open day holds.
#[derive(Clone, Copy, PartialEq, Eq, Debug)]
pub struct OpenFigures {
    /// The time of the last accepted entry, or that of the opening.
    pub time: u32,
    pub quotation: u32,
    pub params: Params,
    pub references: References,
    pub marks: Marks,
    pub days: DaysLeft,
    pub forerunners: Forerunners,
}

impl OpenFigures {
    /// The figures at the time of an accepted entry, with the quotation that it leaves.
    pub fn at(self, time: u32, quotation: u32) -> OpenFigures
        ensures answer { result ≡ figures_at self time quotation }
    {
        OpenFigures {
            time,
            quotation,
            ..self
        }
    }
}

/// What a closed day holds: the last quotation, or none before the first day, and the days left.
#[derive(Clone, Copy, PartialEq, Eq, Debug, Default)]
pub struct ClosedFigures {
    pub quotation: Option<u32>,
    pub days: DaysLeft,
}

/// One line of a trail: 0 and the quotation after an accepted entry, or a refusal's number and 0.
// A line has plain figures and no `Result`: docs/ENTRIES.md, Run and trail, fixes it.
#[derive(Clone, Copy, PartialEq, Eq, Debug)]
pub struct TrailLine {
    pub answer: u8,
    pub quotation: u32,
}
