// A window of an announced plan, as it is asked for.
ghost use Rattle.std.specs.Prelude.{Some};
ghost use Rattle.entry.specs.Windows.{bounding_text};

use std::fmt;

/// Whether a window bounds the dynamic limits.
#[derive(Clone, Copy, PartialEq, Eq, Debug)]
pub enum Bounding {
    Free,
    Bounded,
}

impl fmt::Display for Bounding {
    ghost output = { λ bounding. Some (bounding_text bounding) };

    fn fmt<W: fmt::Write>(&self, f: &mut fmt::Formatter<W>) -> fmt::Result {
        match *self {
            Bounding::Free => write!(f, "free"),
            Bounding::Bounded => write!(f, "bounded"),
        }
    }
}

/// A window as it is announced: start, end, the code of its session, and whether it is free or bounded with K. The figures are
/// raw, and are judged by the plan. K is judged in a free window too.
#[derive(Clone, Copy, PartialEq, Eq, Debug)]
pub struct Announcement {
    pub start: u32,
    pub end: u32,
    pub session: u8,
    pub bounding: Bounding,
    pub k: u32,
}
