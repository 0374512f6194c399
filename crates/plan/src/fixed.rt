// The fixed plan: the usual hours of a trading day. Calendar days before its last one have the weekend session alone.
ghost use Rattle.std.specs.Prelude.{◌≡◌};
ghost use Rattle.plan.specs.Fixed.{fixed_answer, fixed_hours, group_answer, row_holds, row_slot, rows_at};

use crate::Plan;
use crate::slots::{Session, Slot};
use entry::refusals::Refusal;

/// The milliseconds of a calendar day.
const DAY: u32 = 86_400_000;

/// The most calendar days of a trading day.
const MOST_DAYS: u32 = 10;

/// The group of a security.
#[derive(Clone, Copy, PartialEq, Eq, Debug)]
enum Group {
    Quoted,
    Unquoted,
}

impl TryFrom<u32> for Group {
    type Error = Refusal;

    ghost try_from_gives = { λ n result. result ≡ group_answer n };

    /// The group with a code: 0 for quoted securities, 1 for unquoted ones.
    fn try_from(code: u32) -> Result<Group, Refusal> {
        match code {
            0 => Ok(Group::Quoted),
            1 => Ok(Group::Unquoted),
            _ => Err(Refusal::OutOfRange),
        }
    }
}

/// A row of the table of hours: whether it holds on the last calendar day or on each earlier one, the session's start and end in
/// milliseconds of the calendar day, and its K for quoted and for unquoted securities, none where it is free.
#[derive(Clone, Copy)]
struct Row {
    last: bool,
    start: u32,
    end: u32,
    session: Session,
    quoted: Option<u32>,
    unquoted: Option<u32>,
}

/// The hours of all sessions, for both groups.
const HOURS: [Row; 4] = [
    Row {
        last: false,
        start: 36_000_000,
        end: 85_800_000,
        session: Session::Weekend,
        quoted: Some(30),
        unquoted: Some(30),
    },
    Row {
        last: true,
        start: 25_200_000,
        end: 36_000_000,
        session: Session::Morning,
        quoted: Some(100),
        unquoted: Some(100),
    },
    Row {
        last: true,
        start: 36_000_000,
        end: 68_400_000,
        session: Session::Main,
        quoted: None,
        unquoted: Some(220),
    },
    Row {
        last: true,
        start: 68_400_000,
        end: 85_800_000,
        session: Session::Evening,
        quoted: Some(100),
        unquoted: Some(100),
    },
];

impl Row {
    // Whether the row holds at a time of the last calendar day, or of an earlier one.
    fn holds(self, last: bool, clock: u32) -> bool
        ensures { result ≡ row_holds last clock self }
    {
        self.last == last && (self.start..self.end).contains(&clock)
    }

    // The row's slot for a group.
    fn slot(self, group: Group) -> Slot
        ensures { result ≡ row_slot group self }
    {
        let k = match group {
            Group::Quoted => self.quoted,
            Group::Unquoted => self.unquoted,
        };
        match k {
            Some(k) => Slot::Bounded(self.session, k),
            None => Slot::Free(self.session),
        }
    }
}

// The slot at a time of a calendar day, by the row that holds there.
fn slot_in(rows: &[Row], last: bool, clock: u32, group: Group) -> Slot
    ensures { result ≡ rows_at last clock group rows.now }
{
    rows.iter()
        .find(|row| row.holds(last, clock))
        .map_or(Slot::NoSession, |row| row.slot(group))
}

/// The fixed plan of a trading day: the number of its calendar days before the last one, and the security's group.
#[derive(Clone, Copy, PartialEq, Eq, Debug)]
pub struct FixedPlan {
    earlier: u32,
    group: Group,
}

impl FixedPlan {
    /// The plan of a trading day of 1 to 10 calendar days, for group 0, quoted, or 1, unquoted. The figures are raw, and are judged
    /// here.
    pub fn new(days: u32, group: u32) -> Result<FixedPlan, Refusal>
        ensures answer { result ≡ fixed_answer days group }
    {
        let group = Group::try_from(group)?;
        if !(1..=MOST_DAYS).contains(&days) {
            return Err(Refusal::OutOfRange);
        }
        Ok(FixedPlan {
            earlier: days - 1,
            group,
        })
    }
}

impl Plan for FixedPlan {
    ghost hours = { fixed_hours };

    fn vouch(&self) {}

    fn slot(&self, time: u32) -> Slot {
        let day = time / DAY;
        if day > self.earlier {
            return Slot::NoSession;
        }
        slot_in(&HOURS, day == self.earlier, time % DAY, self.group)
    }
}
