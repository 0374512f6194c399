// What a script printed, and what stopped it.
ghost use Rattle.std.specs.Prelude.{◌≡◌, Some, Ok};
ghost use Rattle.grid.specs.Start.{start_answer};
ghost use Rattle.ladder.specs.Counts.{counts_answer};
ghost use Rattle.day.specs.Stops.{stop_text};

use entry::refusals::Refusal;
use plan::Slot;
use std::alloc::AllocError;
use std::fmt;

/// Why a script stopped: the line, from 1, and what is wrong with it.
#[derive(Drop, PartialEq, Eq, Debug)]
pub struct Stop {
    pub line: usize,
    pub why: String,
}

impl fmt::Display for Stop {
    ghost output = { λ stop. Some (stop_text stop) };

    fn fmt<W: fmt::Write>(&self, f: &mut fmt::Formatter<W>) -> fmt::Result {
        write!(f, "{}: {}", self.line, self.why)
    }
}

/// What a script printed up to its end, or up to the line that stopped it.
#[derive(Drop, PartialEq, Eq, Debug)]
pub struct Report {
    pub text: String,
    pub stop: Option<Stop>,
}

/// Why a command is out of place.
#[derive(Clone, Copy, PartialEq, Eq, Debug)]
pub(crate) enum OutOfPlace {
    NoBoard,
    NoPlan,
    NoAnnouncedPlan,
    NoOpenDay,
    DaysNotBuilt,
}

impl fmt::Display for OutOfPlace {
    fn fmt<W: fmt::Write>(&self, f: &mut fmt::Formatter<W>) -> fmt::Result {
        match self {
            OutOfPlace::NoBoard => write!(f, "there is no board"),
            OutOfPlace::NoPlan => write!(f, "there is no plan"),
            OutOfPlace::NoAnnouncedPlan => write!(f, "there is no announced plan"),
            OutOfPlace::NoOpenDay => write!(f, "no day is open"),
            OutOfPlace::DaysNotBuilt => write!(f, "days are not built yet"),
        }
    }
}

/// Why a script is not carried out further.
#[derive(Drop)]
pub(crate) enum Halt {
    /// The line cannot be read, and why.
    Unreadable(String),
    /// The command is out of place.
    OutOfPlace(OutOfPlace),
    /// There is no memory for what is to be printed.
    NoMemory(AllocError),
}

impl From<OutOfPlace> for Halt {
    fn from(why: OutOfPlace) -> Halt {
        Halt::OutOfPlace(why)
    }
}

impl From<AllocError> for Halt {
    fn from(why: AllocError) -> Halt {
        Halt::NoMemory(why)
    }
}

/// How many levels a ladder has on each side.
#[derive(Clone, Copy, PartialEq, Eq, Debug)]
pub(crate) struct LadderCount {
    pub count: usize,
    // It passed the first test.
    ghost tested: { counts_answer count count ≡ Ok tt },
}

/// The price at which a grid starts.
#[derive(Clone, Copy, PartialEq, Eq, Debug)]
pub(crate) struct GridStart {
    pub start: u32,
    // It passed the first test.
    ghost tested: { start_answer start ≡ Ok tt },
}

/// A board that a script asks for.
#[derive(Clone, Copy, PartialEq, Eq, Debug)]
pub(crate) enum NewBoard {
    Ladder(LadderCount),
    Grid(GridStart),
}

/// What a command is answered with.
#[derive(Drop)]
pub(crate) enum Answer {
    /// The command was carried out, or refused.
    Done(Result<(), Refusal>),
    /// The slot of the plan at the time that is asked for.
    Slot(Slot),
    /// The levels of a side, written out.
    Levels(String),
    /// Another board is asked for.
    Board(NewBoard),
}

impl From<Result<NewBoard, Refusal>> for Answer {
    fn from(tested: Result<NewBoard, Refusal>) -> Answer {
        match tested {
            Ok(board) => Answer::Board(board),
            Err(refusal) => Answer::Done(Err(refusal)),
        }
    }
}

/// The answer as it is printed behind its command.
impl fmt::Display for Answer {
    fn fmt<W: fmt::Write>(&self, f: &mut fmt::Formatter<W>) -> fmt::Result {
        match self {
            Answer::Done(Ok(())) | Answer::Board(_) => write!(f, "ok"),
            Answer::Done(Err(refusal)) => write!(f, "refused {}", refusal.number()),
            Answer::Slot(slot) => write!(f, "{slot}"),
            Answer::Levels(text) => write!(f, "{text}"),
        }
    }
}
