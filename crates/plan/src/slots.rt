// Sessions with their codes, what a plan answers at a time, and windows.
ghost use Rattle.std.specs.Prelude.{◌≡◌};
ghost use Rattle.plan.specs.Sessions.{code_of, session_answer};

use entry::refusals::Refusal;
pub use entry::windows::Bounding;

/// A session of a trading day.
#[derive(Clone, Copy, PartialEq, Eq, Debug)]
pub enum Session {
    Morning,
    Main,
    Evening,
    Weekend,
}

impl From<Session> for u8 {
    ghost from_gives = { λ session result. result ≡ code_of session };

    /// The session's code, 1 to 4.
    fn from(session: Session) -> u8 {
        match session {
            Session::Morning => 1,
            Session::Main => 2,
            Session::Evening => 3,
            Session::Weekend => 4,
        }
    }
}

impl TryFrom<u8> for Session {
    type Error = Refusal;

    ghost try_from_gives = { λ n result. result ≡ session_answer n };

    /// The session with a code. One that no session has is out of range.
    fn try_from(code: u8) -> Result<Session, Refusal> {
        match code {
            1 => Ok(Session::Morning),
            2 => Ok(Session::Main),
            3 => Ok(Session::Evening),
            4 => Ok(Session::Weekend),
            _ => Err(Refusal::OutOfRange),
        }
    }
}

/// What a plan answers at a time. The dynamic limits have no bounds in a free session, and bounds by K, in thousandths, in a
/// bounded one.
// `Option<Slot>` over the two kinds of session would stand in each window too, since a blank record has no session, and each match
// would write `Some` around both cases: no plainer.
#[derive(Clone, Copy, PartialEq, Eq, Debug, Default)]
pub enum Slot {
    #[default]
    NoSession,
    Free(Session),
    Bounded(Session, u32),
}

/// A stretch of time with one slot. It contains its start and not its end. The default is a blank record.
#[derive(Clone, Copy, PartialEq, Eq, Debug, Default)]
pub struct Window {
    pub start: u32,
    pub end: u32,
    pub slot: Slot,
}
