// What the tests of both plans share.
use plan::{Plan, Slot};
use std::process::Abort;

// A time with the slot before it and the slot from it on.
pub type Edge = (u32, Slot, Slot);

// The slots one millisecond before each time, at it, and one millisecond after it.
pub(crate) fn edges<P: Plan>(rt: &impl Abort, plan: &P, start: u32, rows: &[Edge]) {
    for &(time, before, after) in rows {
        let time = start.wrapping_add(time);
        assert_eq!(rt; plan.slot(time.saturating_sub(1)), before);
        assert_eq!(rt; plan.slot(time), after);
        assert_eq!(rt; plan.slot(time.saturating_add(1)), after);
    }
}
