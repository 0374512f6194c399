// The kinds of entry, each with its code.
ghost use Rattle.std.specs.Prelude.{◌≡◌};
ghost use Rattle.entry.specs.Kinds.{code, kind_answer, kind_of};

use crate::Entry;
use crate::codes::UnknownCode;

/// The kinds of entry, each with its code.
#[derive(Clone, Copy, PartialEq, Eq, Debug)]
pub enum Kind {
    Clock,
    Post,
    Leave,
    Trade,
    Parameters,
    Reference,
    Ruling,
}

impl From<Entry> for Kind {
    ghost from_gives = { λ entry result. result ≡ kind_of entry };

    /// The kind of an entry.
    fn from(entry: Entry) -> Kind {
        match entry {
            Entry::Clock { .. } => Kind::Clock,
            Entry::Post { .. } => Kind::Post,
            Entry::Leave { .. } => Kind::Leave,
            Entry::Trade { .. } => Kind::Trade,
            Entry::Parameters { .. } => Kind::Parameters,
            Entry::Reference { .. } => Kind::Reference,
            Entry::Ruling { .. } => Kind::Ruling,
        }
    }
}

impl From<Kind> for u8 {
    ghost from_gives = { λ kind result. result ≡ code kind };

    /// The code of the kind.
    fn from(kind: Kind) -> u8 {
        kind as u8
    }
}

impl TryFrom<u8> for Kind {
    type Error = UnknownCode;

    ghost try_from_gives = { λ n result. result ≡ kind_answer n };

    /// The kind with a code, if there is one.
    fn try_from(code: u8) -> Result<Kind, UnknownCode> {
        match code {
            0 => Ok(Kind::Clock),
            1 => Ok(Kind::Post),
            2 => Ok(Kind::Leave),
            3 => Ok(Kind::Trade),
            4 => Ok(Kind::Parameters),
            5 => Ok(Kind::Reference),
            6 => Ok(Kind::Ruling),
            _ => Err(UnknownCode(code)),
        }
    }
}
