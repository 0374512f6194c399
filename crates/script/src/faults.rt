// What is wrong with a line that cannot be read.
ghost use Rattle.std.specs.Prelude.{Some};
ghost use Rattle.script.specs.Faults.{fault_text};

use std::fmt;

/// Why a line cannot be read.
#[derive(Clone, Copy, PartialEq, Eq, Debug)]
pub enum LineFault<'a> {
    /// The first word is no command.
    UnknownCommand {
        word: &'a str,
    },
    /// The line ends before a word of that name.
    Missing {
        name: &'static str,
    },
    /// The word is no figure, or one above the most that its place allows.
    NotFigure {
        name: &'static str,
        word: &'a str,
        most: u32,
    },
    /// The line ends where one of two words is expected.
    MissingChoice {
        first: &'static str,
        second: &'static str,
    },
    /// The word is none of the two that are expected.
    Neither {
        word: &'a str,
        first: &'static str,
        second: &'static str,
    },
    /// The line goes on after its last word.
    TooMany {
        word: &'a str,
    },
}

impl fmt::Display for LineFault<'_> {
    ghost output = { λ fault. Some (fault_text fault) };

    fn fmt<W: fmt::Write>(&self, f: &mut fmt::Formatter<W>) -> fmt::Result {
        match *self {
            LineFault::UnknownCommand { word } => write!(f, "unknown command '{word}'"),
            LineFault::Missing { name } => write!(f, "{name} is missing"),
            LineFault::NotFigure { name, word, most } => {
                write!(f, "{name} '{word}' is not a whole number from 0 to {most}")
            }
            LineFault::MissingChoice { first, second } => {
                write!(f, "{first} or {second} is missing")
            }
            LineFault::Neither {
                word,
                first,
                second,
            } => write!(f, "'{word}' is neither {first} nor {second}"),
            LineFault::TooMany { word } => write!(f, "one word too many: '{word}'"),
        }
    }
}
