// The plain form of entries, commands and refusals: words and decimal figures with single blanks between.
ghost use Rattle.std.specs.Prelude.{Some};
ghost use Rattle.script.specs.Commands.{bounding_text, limit_text, plan_text, shape_text, board_text, day_text, command_text};
ghost use Rattle.script.specs.Print.{entry_text, side_text, params_text, refusal_text};

use crate::command::{
    Announcement, BoardCommand, BoardShape, Bounding, Command, DayCommand, LimitKind, PlanCommand,
};
use entry::refusals::{Place, Refusal};
use entry::{Entry, Params, Side};
use std::fmt;

// The types are the entries' crate's, where no words of scripts are known; a Display must stand with the type or with a wrapper.
/// A value to be printed in its plain form.
#[derive(Clone, Copy)]
pub struct Plain<T>(pub T);

impl fmt::Display for Plain<Side> {
    ghost output = { λ plain. Some (side_text plain.0) };

    fn fmt<W: fmt::Write>(&self, f: &mut fmt::Formatter<W>) -> fmt::Result {
        match self.0 {
            Side::Buy => write!(f, "buy"),
            Side::Sell => write!(f, "sell"),
        }
    }
}

impl fmt::Display for Plain<Params> {
    ghost output = { λ plain. Some (params_text plain.0) };

    fn fmt<W: fmt::Write>(&self, f: &mut fmt::Formatter<W>) -> fmt::Result {
        let Params { sp, l, ur, lr } = self.0;
        write!(f, "{sp} {l} {ur} {lr}")
    }
}

impl fmt::Display for Plain<Entry> {
    ghost output = { λ plain. Some (entry_text plain.0) };

    fn fmt<W: fmt::Write>(&self, f: &mut fmt::Formatter<W>) -> fmt::Result {
        match self.0 {
            Entry::Clock { time } => write!(f, "clock {time}"),
            Entry::Post {
                time,
                side,
                mode,
                price,
            } => write!(f, "post {time} {} {mode} {price}", Plain(side)),
            Entry::Leave { time, side, price } => {
                write!(f, "leave {time} {} {price}", Plain(side))
            }
            Entry::Trade {
                time,
                mode,
                price,
                quantity,
            } => write!(f, "trade {time} {mode} {price} {quantity}"),
            Entry::Parameters { time, params } => {
                write!(f, "parameters {time} {}", Plain(params))
            }
            Entry::Reference {
                time,
                session,
                price,
            } => write!(f, "reference {time} {session} {price}"),
            Entry::Ruling { time, price } => write!(f, "ruling {time} {price}"),
        }
    }
}

impl fmt::Display for Plain<Refusal> {
    ghost output = { λ plain. Some (refusal_text plain.0) };

    fn fmt<W: fmt::Write>(&self, f: &mut fmt::Formatter<W>) -> fmt::Result {
        let refused = self.0.number();
        match self.0.place() {
            Some(Place { number, bit }) => {
                write!(f, "record {number} bit {bit} refused {refused}")
            }
            None => write!(f, "refused {refused}"),
        }
    }
}

impl fmt::Display for Plain<Bounding> {
    ghost output = { λ plain. Some (bounding_text plain.0) };

    fn fmt<W: fmt::Write>(&self, f: &mut fmt::Formatter<W>) -> fmt::Result {
        write!(f, "{}", self.0)
    }
}

impl fmt::Display for LimitKind {
    ghost output = { λ which. Some (limit_text which) };

    fn fmt<W: fmt::Write>(&self, f: &mut fmt::Formatter<W>) -> fmt::Result {
        match *self {
            LimitKind::Static => write!(f, "static"),
            LimitKind::Dynamic => write!(f, "dynamic"),
        }
    }
}

impl fmt::Display for PlanCommand {
    ghost output = { λ command. Some (plan_text command) };

    fn fmt<W: fmt::Write>(&self, f: &mut fmt::Formatter<W>) -> fmt::Result {
        match *self {
            PlanCommand::Fixed { days, group } => write!(f, "plan fixed {days} {group}"),
            PlanCommand::Announced => write!(f, "plan announced"),
            PlanCommand::Window(
                Announcement {
                    start,
                    end,
                    session,
                    bounding,
                    k,
                },
            ) => write!(f, "window {start} {end} {session} {} {k}", Plain(bounding)),
            PlanCommand::Session { time } => write!(f, "session {time}"),
        }
    }
}

impl fmt::Display for BoardShape {
    ghost output = { λ shape. Some (shape_text shape) };

    fn fmt<W: fmt::Write>(&self, f: &mut fmt::Formatter<W>) -> fmt::Result {
        match *self {
            BoardShape::Ladder { count } => write!(f, "board ladder {count}"),
            BoardShape::Grid { start } => write!(f, "board grid {start}"),
        }
    }
}

impl fmt::Display for BoardCommand {
    ghost output = { λ command. Some (board_text command) };

    fn fmt<W: fmt::Write>(&self, f: &mut fmt::Formatter<W>) -> fmt::Result {
        match *self {
            BoardCommand::Add { side, price, time } => {
                write!(f, "add {} {price} {time}", Plain(side))
            }
            BoardCommand::Take { side, price } => write!(f, "take {} {price}", Plain(side)),
            BoardCommand::Levels { side } => write!(f, "levels {}", Plain(side)),
        }
    }
}

impl fmt::Display for DayCommand<'_> {
    ghost output = { λ command. Some (day_text command) };

    fn fmt<W: fmt::Write>(&self, f: &mut fmt::Formatter<W>) -> fmt::Result {
        match *self {
            DayCommand::Listed => write!(f, "listed"),
            DayCommand::Open { time, params } => write!(f, "open {time} {}", Plain(params)),
            DayCommand::Limits { which, time } => write!(f, "limits {which} {time}"),
            DayCommand::Feed { file } => write!(f, "feed {file}"),
            DayCommand::Close => write!(f, "close"),
        }
    }
}

impl fmt::Display for Command<'_> {
    ghost output = { λ command. Some (command_text command) };

    fn fmt<W: fmt::Write>(&self, f: &mut fmt::Formatter<W>) -> fmt::Result {
        match *self {
            Command::Entry(entry) => write!(f, "{}", Plain(entry)),
            Command::Plan(plan) => write!(f, "{plan}"),
            Command::NewBoard(shape) => write!(f, "{shape}"),
            Command::Board(board) => write!(f, "{board}"),
            Command::Day(day) => write!(f, "{day}"),
        }
    }
}
