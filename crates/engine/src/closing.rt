// Open days: what they hold, and their closing.
ghost use Rattle.std.specs.Prelude.{◌≡◌};
ghost use Rattle.rules.specs.Days.{closed, days_after};
ghost use Rattle.rules.specs.Calls.{ClosedAs};

use crate::{ClosedDay, OpenDay};
use rules::figures::{ClosedFigures, DaysLeft, OpenFigures};

impl OpenDay {
    /// What the day holds.
    pub fn figures(&self) -> OpenFigures
        ensures answer { result ≡ self.now.figures }
    {
        self.figures
    }

    /// Closes the day. Only the quotation and the days left go on.
    pub fn close(self) -> ClosedDay
        ensures answer { result.figures ≡ closed self.figures }
        ensures promise { ClosedAs self.figures result.figures }
    {
        let OpenDay { figures } = self;
        ClosedDay {
            figures: carried_over(figures),
        }
    }
}

// What a closed day keeps of an open one.
fn carried_over(figures: OpenFigures) -> ClosedFigures
    ensures { result ≡ closed figures }
{
    ClosedFigures {
        quotation: Some(figures.quotation),
        days: DaysLeft {
            upward: days_after(figures.marks.upward, figures.days.upward),
            downward: days_after(figures.marks.downward, figures.days.downward),
        },
    }
}

// The days left after a close: two where the day is marked, else one less.
fn days_after(marked: bool, days: u8) -> u8
    ensures { result ≡ days_after marked days }
{
    if marked { 2 } else { days.saturating_sub(1) }
}
