// Closed days: newly listed, what they hold, and their opening.
ghost use Rattle.std.specs.Prelude.{◌≡◌};
ghost use Rattle.rules.specs.Days.{newly_listed, open_answer, opened};
ghost use Rattle.engine.specs.Calls.{opened_by, OpenTold};

use crate::ranges::{LAST_TIME, are_params};
use crate::{ClosedDay, OpenDay};
use board::Board;
use entry::Params;
use entry::refusals::Refusal;
use rules::figures::{ClosedFigures, Forerunners, Marks, OpenFigures, References};

impl ClosedDay {
    /// A newly listed security: it has no quotation yet, and no tightened days.
    pub fn newly_listed() -> ClosedDay
        ensures answer { result.figures ≡ newly_listed }
    {
        ClosedDay {
            figures: ClosedFigures::default(),
        }
    }

    /// What the day holds.
    pub fn figures(&self) -> ClosedFigures
        ensures answer { result ≡ self.now.figures }
    {
        self.figures
    }

    /// Ends the security's days, so that a program can end, and tells what the last one held.
    pub fn into_figures(self) -> ClosedFigures
        ensures answer { result ≡ self.figures }
    {
        let ClosedDay { figures: last } = self;
        last
    }

    /// Opens the day at a time, with parameters, for trading on a board. Parameters out of range, a time that is too late and a
    /// board on which a level stands are refused, and the same closed day comes back.
    pub fn open<B: Board>(
        self,
        board: &B,
        time: u32,
        params: Params,
    ) -> Result<OpenDay, (ClosedDay, Refusal)>
        ensures answer { result ≡ opened_by (open_answer (B.Board.book board.now) time params) self (opened self.figures time params) }
        ensures promise { OpenTold (B.Board.book board.now) self time params result }
    {
        match may_open(board, time, params) {
            Ok(()) => {
                let ClosedDay { figures } = self;
                Ok(OpenDay {
                    figures: begun(figures, time, params),
                })
            }
            Err(refusal) => Err((self, refusal)),
        }
    }
}

// Whether a day may be opened.
fn may_open<B: Board>(board: &B, time: u32, params: Params) -> Result<(), Refusal>
    ensures { result ≡ open_answer (B.Board.book board.now) time params }
{
    if !are_params(params) {
        return Err(Refusal::OutOfRange);
    }
    if time > LAST_TIME {
        return Err(Refusal::BadTime);
    }
    if !board.is_empty() {
        return Err(Refusal::BoardNotEmpty);
    }
    Ok(())
}

// The figures of a day as it begins.
fn begun(before: ClosedFigures, time: u32, params: Params) -> OpenFigures
    ensures { result ≡ opened before time params }
{
    OpenFigures {
        time,
        quotation: before.quotation.unwrap_or(params.sp),
        params,
        references: References::default(),
        marks: Marks::default(),
        days: before.days,
        forerunners: Forerunners::default(),
    }
}
