// The making of an announced plan, its windows, and its answers.
ghost use Rattle.std.specs.Prelude.{◌≡◌, ◌<◌, []};
ghost use Rattle.shelf.specs.Standing.{over};
ghost use Rattle.plan.specs.Windows.{last_by, overlaps_any};
ghost use Rattle.plan.specs.Announced.{announced_hours, announced_records, window_of, add_answer, add_after, window_answer, window_after};

use crate::Plan;
use crate::announced::AnnouncedPlan;
use crate::slots::{Session, Slot, Window};
use entry::refusals::Refusal;
use entry::windows::{Announcement, Bounding};
use shelf::Shelf;

/// The most windows of a plan.
pub const MOST_WINDOWS: usize = 32;

/// The latest end of a window, in milliseconds: ten calendar days.
const LATEST_END: u32 = 864_000_000;

/// The greatest K of a bounded window, in thousandths.
const GREATEST_K: u32 = 1_000;

// The window that is asked for, where its figures are in range.
fn checked(asked: Announcement) -> Result<Window, Refusal>
    ensures { result ≡ window_of asked }
{
    let Announcement {
        start,
        end,
        session,
        bounding,
        k,
    } = asked;
    let session = Session::try_from(session)?;
    if k > GREATEST_K || start >= end || end > LATEST_END {
        return Err(Refusal::OutOfRange);
    }
    let slot = match bounding {
        Bounding::Free => Slot::Free(session),
        Bounding::Bounded => Slot::Bounded(session, k),
    };
    Ok(Window { start, end, slot })
}

impl<'a> AnnouncedPlan<'a> {
    /// A plan with no window, over the records handed over.
    pub fn new(records: &'a mut [Window; MOST_WINDOWS]) -> Self
        ensures answer { announced_hours result ≡ [] }
        ensures records { announced_records result ≡ records.old }
    {
        let shelf = Shelf::new(records);
        AnnouncedPlan { shelf }
    }

    /// Ends the plan and hands the records back: the first of them hold its windows.
    pub fn into_records(self) -> &'a mut [Window]
        ensures records { result.now ≡ announced_records self.entry }
    {
        let AnnouncedPlan { shelf } = self;
        shelf.into_records()
    }

    // The last window that starts at or before a time, or none.
    fn last_by(&self, time: u32) -> Option<Window>
        ensures { result ≡ last_by time (announced_hours self.now) }
    {
        match self.shelf.find(time) {
            Ok(at) => self.shelf.get(at),
            Err(at) => self.shelf.get(at.checked_sub(1)?),
        }
    }

    // Whether the window overlaps one of the plan: if any, then the last one that starts before its end.
    fn overlaps(&self, window: Window) -> bool
        requires { window.start < window.end }
        ensures { result ≡ overlaps_any window (announced_hours self.now) }
    {
        self.last_by(window.end - 1)
            .is_some_and(|last| window.start < last.end)
    }

    // Adds a window whose figures are in range.
    fn add(&mut self, window: Window) -> Result<(), Refusal>
        requires { window.start < window.end }
        ensures answer { result ≡ add_answer window (announced_hours self.old) }
        ensures after { announced_hours self.new ≡ add_after window (announced_hours self.old) }
        ensures records { announced_records self.new ≡ over (announced_hours self.new) (announced_records self.old) }
    {
        if self.overlaps(window) {
            return Err(Refusal::WindowOverlaps);
        }
        self.shelf
            .insert(window)
            .map_err(|_| Refusal::TooManyWindows)
    }

    /// Announces a window of a session, by its code, that is free or bounded with K. A refusal changes nothing. The windows stand
    /// in the first records, and the others keep what they held.
    pub fn window(&mut self, asked: Announcement) -> Result<(), Refusal>
        ensures answer { result ≡ window_answer (window_of asked) (announced_hours self.old) }
        ensures after { announced_hours self.new ≡ window_after (window_of asked) (announced_hours self.old) }
        ensures records { announced_records self.new ≡ over (announced_hours self.new) (announced_records self.old) }
    {
        self.add(checked(asked)?)
    }
}

impl Plan for AnnouncedPlan<'_> {
    ghost hours = { announced_hours };

    fn vouch(&self) {}

    fn slot(&self, time: u32) -> Slot {
        self.last_by(time)
            .filter(|window| time < window.end)
            .map_or(Slot::NoSession, |window| window.slot)
    }
}
