// Trades of each mode, orders of negotiated deals, and the marks that a trade leaves.
ghost use Rattle.std.specs.Prelude.{◌≡◌};
ghost use Rattle.rules.specs.Checks.{checked};
ghost use Rattle.rules.specs.Effects.{marked_in};
ghost use Rattle.engine.specs.Calls.{state_of, after_checked, trade_of};

use crate::OpenDay;
use board::Board;
use entry::refusals::Refusal;
use plan::{Plan, Session, Slot};
use rules::figures::{Marks, OpenFigures};

impl OpenDay {
    // A trade of main trading, whose price becomes the quotation and which may mark the day.
    pub(crate) fn trade_main<B: Board, P: Plan>(
        &mut self,
        board: &B,
        plan: &P,
        time: u32,
        price: u32,
    ) -> Result<(), Refusal>
        ensures answer { result ≡ checked (P.Plan.hours plan.now) (state_of self.old (B.Board.book board.now)) (trade_of time 0 price) }
        ensures after { state_of self.new (B.Board.book board.now) ≡ after_checked (P.Plan.hours plan.now) (state_of self.old (B.Board.book board.now)) (trade_of time 0 price) }
    {
        let slot = self.listed(plan, time, price)?;
        let quotation = self.quotation_at(board, time);
        self.in_dynamic(price, quotation, slot)?;
        self.figures = OpenFigures {
            marks: self.marks_after(price, slot),
            ..self.figures.at(time, price)
        };
        Ok(())
    }

    // A trade of the closing auction, which is held to the dynamic limits too, and sets nothing. The two trades repeat three lines
    // of checks: one function for these would have to tell the slot and the quotation too, in a contract longer than the lines.
    pub(crate) fn trade_at_auction<B: Board, P: Plan>(
        &mut self,
        board: &B,
        plan: &P,
        time: u32,
        price: u32,
    ) -> Result<(), Refusal>
        ensures answer { result ≡ checked (P.Plan.hours plan.now) (state_of self.old (B.Board.book board.now)) (trade_of time 1 price) }
        ensures after { state_of self.new (B.Board.book board.now) ≡ after_checked (P.Plan.hours plan.now) (state_of self.old (B.Board.book board.now)) (trade_of time 1 price) }
    {
        let slot = self.listed(plan, time, price)?;
        let quotation = self.quotation_at(board, time);
        self.in_dynamic(price, quotation, slot)?;
        self.figures = self.figures.at(time, quotation);
        Ok(())
    }

    // A trade of negotiated deals. An order of negotiated deals meets the same checks, and leaves the same.
    pub(crate) fn negotiate<B: Board, P: Plan>(
        &mut self,
        board: &B,
        plan: &P,
        time: u32,
        price: u32,
    ) -> Result<(), Refusal>
        ensures answer { result ≡ checked (P.Plan.hours plan.now) (state_of self.old (B.Board.book board.now)) (trade_of time 2 price) }
        ensures after { state_of self.new (B.Board.book board.now) ≡ after_checked (P.Plan.hours plan.now) (state_of self.old (B.Board.book board.now)) (trade_of time 2 price) }
    {
        let _ = self.listed(plan, time, price)?;
        self.figures = self.figures.at(time, self.quotation_at(board, time));
        Ok(())
    }

    // The marks after a trade of main trading: one in a bounded window of the main session marks the day where it is more than 18%
    // off LP.
    fn marks_after(&self, price: u32, slot: Slot) -> Marks
        ensures { result ≡ marked_in self.now.figures price slot }
    {
        let marks = self.figures.marks;
        match slot {
            Slot::Bounded(Session::Main, _) => {
                let lp = self.lp(Session::Main) as u64;
                let hundredfold = 100 * price as u64;
                Marks {
                    upward: marks.upward || hundredfold > 118 * lp,
                    downward: marks.downward || hundredfold < 82 * lp,
                }
            }
            _ => marks,
        }
    }
}
