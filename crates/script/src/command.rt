// What the lines of a day script ask for.
ghost use Rattle.std.specs.Prelude.{◌≡◌};
ghost use Rattle.script.specs.Commands.{entry_in};

pub use entry::windows::{Announcement, Bounding};
use entry::{Entry, Params, Side};

/// Which of the two pairs of limits is asked for.
#[derive(Clone, Copy, PartialEq, Eq, Debug)]
pub enum LimitKind {
    Static,
    Dynamic,
}

/// A command for plans, with raw figures: what they may be is judged where the command is carried out.
#[derive(Clone, Copy, PartialEq, Eq, Debug)]
pub enum PlanCommand {
    /// The plan of fixed hours for so many days and a group of securities.
    Fixed { days: u32, group: u32 },
    /// A plan of announced windows, with none yet.
    Announced,
    /// A window for the announced plan.
    Window(Announcement),
    /// Asks for the session at a time.
    Session { time: u32 },
}

/// Which board is asked for, with a raw figure.
#[derive(Clone, Copy, PartialEq, Eq, Debug)]
pub enum BoardShape {
    /// A board for so many levels on each side.
    Ladder { count: u32 },
    /// A board for every price from a start.
    Grid { start: u32 },
}

/// A command for the board itself, with raw figures.
#[derive(Clone, Copy, PartialEq, Eq, Debug)]
pub enum BoardCommand {
    /// An order is put on the board.
    Add { side: Side, price: u32, time: u32 },
    /// An order is taken off the board.
    Take { side: Side, price: u32 },
    /// Asks for the levels of a side.
    Levels { side: Side },
}

/// A command for a day, with raw figures.
#[derive(Clone, Copy, PartialEq, Eq, Debug)]
pub enum DayCommand<'a> {
    /// A newly listed security.
    Listed,
    /// The day is opened.
    Open { time: u32, params: Params },
    /// Asks for limits at a time.
    Limits { which: LimitKind, time: u32 },
    /// The entries of a feed, as one run.
    Feed { file: &'a str },
    /// The day is closed.
    Close,
}

/// One command of a day script.
#[derive(Clone, Copy, PartialEq, Eq, Debug)]
pub enum Command<'a> {
    /// An entry for the open day.
    Entry(Entry),
    /// A command for plans.
    Plan(PlanCommand),
    /// A new board.
    NewBoard(BoardShape),
    /// A command for the board.
    Board(BoardCommand),
    /// A command for the day.
    Day(DayCommand<'a>),
}

impl Command<'_> {
    /// The entry that the command is, if it is one.
    pub fn entry(self) -> Option<Entry>
        ensures answer { result ≡ entry_in self.entry }
    {
        match self {
            Command::Entry(entry) => Some(entry),
            _ => None,
        }
    }
}
