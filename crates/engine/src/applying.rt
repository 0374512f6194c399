// One entry of any kind.
ghost use Rattle.std.specs.Prelude.{◌≡◌};
ghost use Rattle.rules.specs.Checks.{answer};
ghost use Rattle.rules.specs.Effects.{after};
ghost use Rattle.rules.specs.Calls.{Entered};
ghost use Rattle.engine.specs.Calls.{state_of};

use crate::OpenDay;
use crate::ranges::{are_params, is_price, is_quantity};
use board::Board;
use entry::refusals::Refusal;
use entry::{Entry, Side};
use plan::{Plan, Session};

impl OpenDay {
    // The entry's kind, mode and side select its checks, and what no arm takes is out of range. The project fixes that this is one
    // match with guards.
    pub(crate) fn apply<B: Board, P: Plan>(
        &mut self,
        board: &mut B,
        plan: &P,
        entry: Entry,
    ) -> Result<(), Refusal>
        ensures answer { result ≡ answer (P.Plan.hours plan.now) (state_of self.old (B.Board.book board.old)) entry }
        ensures after { state_of self.new (B.Board.book board.new) ≡ after (P.Plan.hours plan.now) (state_of self.old (B.Board.book board.old)) entry }
        ensures lent { B.Board.loans board.new ≡ B.Board.loans board.old }
    {
        match entry {
            Entry::Clock { time } => self.go_on(board, plan, time),
            Entry::Post {
                time,
                side: Side::Buy,
                mode: 0,
                price,
            } if is_price(price) => self.add_order(board, plan, time, Side::Buy, price),
            Entry::Post {
                time,
                side: Side::Sell,
                mode: 0,
                price,
            } if is_price(price) => self.add_order(board, plan, time, Side::Sell, price),
            Entry::Post {
                time,
                mode: 2,
                price,
                ..
            } if is_price(price) => self.negotiate(board, plan, time, price),
            Entry::Leave { time, side, price } if is_price(price) => {
                self.take_order(board, plan, time, side, price)
            }
            Entry::Trade {
                time,
                mode: 0,
                price,
                quantity,
            } if is_price(price) && is_quantity(quantity) => {
                self.trade_main(board, plan, time, price)
            }
            Entry::Trade {
                time,
                mode: 1,
                price,
                quantity,
            } if is_price(price) && is_quantity(quantity) => {
                self.trade_at_auction(board, plan, time, price)
            }
            Entry::Trade {
                time,
                mode: 2,
                price,
                quantity,
            } if is_price(price) && is_quantity(quantity) => {
                self.negotiate(board, plan, time, price)
            }
            Entry::Parameters { time, params } if are_params(params) => {
                self.set_params(board, plan, time, params)
            }
            Entry::Reference {
                time,
                session,
                price,
            } if is_price(price) => {
                let session = Session::try_from(session)?;
                self.set_reference(board, plan, time, session, price)
            }
            Entry::Ruling { time, price } if is_price(price) => {
                self.rule(board, plan, time, price)
            }
            _ => Err(Refusal::OutOfRange),
        }
    }

    // The entry applied, with what the rules promise of it. The promise is drawn from the equalities of `apply`: stated there, it
    // would be proved at each of its returns.
    pub(crate) fn enter<B: Board, P: Plan>(
        &mut self,
        board: &mut B,
        plan: &P,
        entry: Entry,
    ) -> Result<(), Refusal>
        ensures entered { Entered (P.Plan.hours plan.now) (state_of self.old (B.Board.book board.old)) entry result (state_of self.new (B.Board.book board.new)) }
        ensures lent { B.Board.loans board.new ≡ B.Board.loans board.old }
    {
        self.apply(board, plan, entry)
    }
}
