// Entries that meet the time's check alone: clocks, parameters, references and rulings. Each gets the board and the plan, so that
// the contracts of all entries have one form.
ghost use Rattle.std.specs.Prelude.{◌≡◌};
ghost use Rattle.entry.specs.declared.Entry.{Entry};
ghost use Rattle.plan.specs.Sessions.{code_of};
ghost use Rattle.rules.specs.Checks.{checked};
ghost use Rattle.engine.specs.Calls.{state_of, after_checked};

use crate::OpenDay;
use board::Board;
use entry::Params;
use entry::refusals::Refusal;
use plan::{Plan, Session};
use rules::figures::OpenFigures;

impl OpenDay {
    // Time has gone on: the price of a level that has become ripe becomes the quotation.
    pub(crate) fn go_on<B: Board, P: Plan>(
        &mut self,
        board: &B,
        plan: &P,
        time: u32,
    ) -> Result<(), Refusal>
        ensures answer { result ≡ checked (P.Plan.hours plan.now) (state_of self.old (B.Board.book board.now)) (Entry.Clock time) }
        ensures after { state_of self.new (B.Board.book board.now) ≡ after_checked (P.Plan.hours plan.now) (state_of self.old (B.Board.book board.now)) (Entry.Clock time) }
    {
        self.on_time(time)?;
        self.figures = self.figures.at(time, self.quotation_at(board, time));
        Ok(())
    }

    // New parameters in range, all four together.
    pub(crate) fn set_params<B: Board, P: Plan>(
        &mut self,
        board: &B,
        plan: &P,
        time: u32,
        params: Params,
    ) -> Result<(), Refusal>
        ensures answer { result ≡ checked (P.Plan.hours plan.now) (state_of self.old (B.Board.book board.now)) (Entry.Parameters time params) }
        ensures after { state_of self.new (B.Board.book board.now) ≡ after_checked (P.Plan.hours plan.now) (state_of self.old (B.Board.book board.now)) (Entry.Parameters time params) }
    {
        self.on_time(time)?;
        self.figures = OpenFigures {
            params,
            ..self.figures.at(time, self.quotation_at(board, time))
        };
        Ok(())
    }

    // A reference price for a session.
    pub(crate) fn set_reference<B: Board, P: Plan>(
        &mut self,
        board: &B,
        plan: &P,
        time: u32,
        session: Session,
        price: u32,
    ) -> Result<(), Refusal>
        ensures answer { result ≡ checked (P.Plan.hours plan.now) (state_of self.old (B.Board.book board.now)) (Entry.Reference time (code_of session) price) }
        ensures after { state_of self.new (B.Board.book board.now) ≡ after_checked (P.Plan.hours plan.now) (state_of self.old (B.Board.book board.now)) (Entry.Reference time (code_of session) price) }
    {
        self.on_time(time)?;
        self.figures = OpenFigures {
            references: self.figures.references.with(session, price),
            ..self.figures.at(time, self.quotation_at(board, time))
        };
        Ok(())
    }

    // A ruling, whose price becomes the quotation, whatever level is ripe.
    pub(crate) fn rule<B: Board, P: Plan>(
        &mut self,
        board: &B,
        plan: &P,
        time: u32,
        price: u32,
    ) -> Result<(), Refusal>
        ensures answer { result ≡ checked (P.Plan.hours plan.now) (state_of self.old (B.Board.book board.now)) (Entry.Ruling time price) }
        ensures after { state_of self.new (B.Board.book board.now) ≡ after_checked (P.Plan.hours plan.now) (state_of self.old (B.Board.book board.now)) (Entry.Ruling time price) }
    {
        self.on_time(time)?;
        self.figures = self.figures.at(time, price);
        Ok(())
    }
}
