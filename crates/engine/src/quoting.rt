// The limits that a day would hold a price to at a time. Asking changes nothing.
ghost use Rattle.std.specs.Prelude.{◌≡◌};
ghost use Rattle.rules.specs.Checks.{static_answer, dynamic_answer};
ghost use Rattle.rules.specs.Calls.{StaticTold, DynamicTold};
ghost use Rattle.engine.specs.Calls.{state_of};

use crate::OpenDay;
use board::Board;
use entry::refusals::Refusal;
use limits::static_limits;
use plan::Plan;

impl OpenDay {
    /// The static limits at a time, lower and upper.
    pub fn static_limits(&self, time: u32) -> Result<(u64, u64), Refusal>
        ensures answer { result ≡ static_answer self.now.figures time }
        ensures promise { StaticTold self.now.figures time result }
    {
        self.on_time(time)?;
        Ok(static_limits(self.figures.params))
    }

    /// The dynamic limits at a time, lower and upper. They use the quotation that an entry of that time would use.
    pub fn dynamic_limits<B: Board, P: Plan>(
        &self,
        board: &B,
        plan: &P,
        time: u32,
    ) -> Result<(u64, u64), Refusal>
        ensures answer { result ≡ dynamic_answer (P.Plan.hours plan.now) (state_of self.now (B.Board.book board.now)) time }
        ensures promise { DynamicTold (P.Plan.hours plan.now) (state_of self.now (B.Board.book board.now)) time result }
    {
        self.on_time(time)?;
        let quotation = self.quotation_at(board, time);
        Ok(self.dynamic(quotation, plan.slot(time)))
    }
}
