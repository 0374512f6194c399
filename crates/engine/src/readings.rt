// What is read off the figures of a day and a board: LP, the ripe levels, the quotation for the limits, the dynamic limits.
ghost use Rattle.std.specs.Prelude.{◌≡◌, ◌≤◌};
ghost use Rattle.board.specs.Book.{best_of};
ghost use Rattle.rules.specs.Readings.{full_time, lp_of, credit_of, ripe_of, quotation_at, window_of, dynamic_of};

use crate::OpenDay;
use board::{Board, Level};
use entry::Side;
use limits::{BoundedWindow, dynamic_limits};
use plan::{Session, Slot};
use rules::figures::Forerunner;

/// For how long a level without credit must have stood to be ripe.
const FULL_TIME: u32 = 5_000;

impl OpenDay {
    // LP of a session: its latest reference, else SP.
    pub(crate) fn lp(&self, session: Session) -> u32
        ensures { result ≡ lp_of self.now.figures session }
    {
        self.figures
            .references
            .of(session)
            .unwrap_or(self.figures.params.sp)
    }

    // The price of a side's best level, where it betters the quotation and is old enough.
    fn ripe<B: Board>(&self, board: &B, side: Side, time: u32) -> Option<u32>
        ensures { result ≡ ripe_of self.now.figures side time (best_of (B.Board.book board.now) side) }
    {
        let level = board.best(side)?;
        let age = time.saturating_sub(level.since);
        let required = FULL_TIME - credit(side, level, *self.figures.forerunners.of(side));
        let is_ripe = side.betters(level.price, self.figures.quotation) && age >= required;
        is_ripe.then_some(level.price)
    }

    // The quotation that limits use: the ripe level's price, else the day's quotation.
    pub(crate) fn quotation_at<B: Board>(&self, board: &B, time: u32) -> u32
        ensures { result ≡ quotation_at self.now.figures (B.Board.book board.now) time }
    {
        let buy = self.ripe(board, Side::Buy, time);
        let sell = self.ripe(board, Side::Sell, time);
        buy.or(sell).unwrap_or(self.figures.quotation)
    }

    // What the limits read of a bounded window. In a free one, and where there is no session, the dynamic limits have no bounds.
    fn bounded_window(&self, slot: Slot) -> Option<BoundedWindow>
        ensures { result ≡ window_of self.now.figures slot }
    {
        match slot {
            Slot::Bounded(session, k) => Some(BoundedWindow {
                session: u8::from(session),
                k,
                lp: self.lp(session),
                up: self.figures.days.upward,
                down: self.figures.days.downward,
            }),
            _ => None,
        }
    }

    // The dynamic limits around a quotation, lower and upper.
    pub(crate) fn dynamic(&self, quotation: u32, slot: Slot) -> (u64, u64)
        ensures { result ≡ dynamic_of self.now.figures quotation slot }
    {
        dynamic_limits(self.figures.params, quotation, self.bounded_window(slot))
    }
}

// What a level is credited for its side's forerunner.
fn credit(side: Side, level: Level, forerunner: Option<Forerunner>) -> u32
    ensures answer { result ≡ credit_of side level forerunner }
    ensures bound { result ≤ full_time }
{
    forerunner
        .filter(|ended| {
            side.betters(ended.price, level.price)
                && ended.since < level.since
                && ended.life < FULL_TIME
        })
        .map_or(0, |ended| ended.life)
}
