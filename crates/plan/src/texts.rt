// Sessions and slots as they are printed.
ghost use Rattle.std.specs.Prelude.{Some};
ghost use Rattle.plan.specs.Texts.{session_text, slot_text};

use crate::slots::{Session, Slot};
use std::fmt;

impl fmt::Display for Session {
    ghost output = { λ session. Some (session_text session) };

    fn fmt<W: fmt::Write>(&self, f: &mut fmt::Formatter<W>) -> fmt::Result {
        match *self {
            Session::Morning => write!(f, "morning"),
            Session::Main => write!(f, "main"),
            Session::Evening => write!(f, "evening"),
            Session::Weekend => write!(f, "weekend"),
        }
    }
}

impl fmt::Display for Slot {
    ghost output = { λ slot. Some (slot_text slot) };

    fn fmt<W: fmt::Write>(&self, f: &mut fmt::Formatter<W>) -> fmt::Result {
        match *self {
            Slot::NoSession => write!(f, "none"),
            Slot::Free(session) => write!(f, "{session} free"),
            Slot::Bounded(session, k) => write!(f, "{session} bounded {k}"),
        }
    }
}
