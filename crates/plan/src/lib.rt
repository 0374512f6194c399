//! What a day plan is to all that ask one: the session, if there is one, at each time of a trading day.
#![tactic(auto)]

pub mod announced;
pub mod fixed;
mod records;
pub mod slots;
mod texts;

ghost use Rattle.std.specs.Prelude.{◌≡◌, true, List};
ghost use Rattle.plan.specs.declared.slots.Window.{Window};
ghost use Rattle.plan.specs.Hours.{slot_at, in_order, Told};
ghost use Rattle.plan.specs.Overlaps.{Overlaps};

pub use entry::windows::Announcement;
pub use slots::{Bounding, Session, Slot, Window};

/// A fixed function from a time to its slot. Asking changes nothing, and any time may be asked.
pub trait Plan {
    // the windows of the plan, in the order of their starts
    ghost hours: { Self → List Window };

    /// Tells code over any plan what holds of every plan: its windows are in order and do not overlap, and each gives the slot
    /// at every time that it contains. It does nothing.
    fn vouch(&self)
        ensures order { in_order 0 (hours self.now) ≡ true }
        ensures told { Told (hours self.now) };

    /// The slot at a time: that of the window which contains the time.
    fn slot(&self, time: u32) -> Slot
        ensures answer { result ≡ slot_at (hours self.now) time };
}

/// Does nothing. Its contract says what an overlap is: a time that lies in two windows.
pub fn overlaps_told()
    ensures overlaps { Overlaps }
{}
