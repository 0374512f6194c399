// The announced plan: hours that are announced window by window, on a shelf of records handed over.
pub mod calls;

ghost use Rattle.std.specs.Prelude.{◌≡◌, true, length};
ghost use Rattle.shelf.specs.Standing.{live, held};
ghost use Rattle.plan.specs.Hours.{in_order};
ghost use Rattle.plan.specs.Windows.{most_windows};

use crate::slots::Window;
use shelf::Shelf;

/// The hours of a trading day, announced one window at a time. It holds at most 32 windows.
#[derive(Drop)]
pub struct AnnouncedPlan<'a> {
    shelf: Shelf<'a, Window>,
    ghost order: { in_order 0 (live shelf) ≡ true },
    ghost records: { length (held shelf) ≡ most_windows },
}
