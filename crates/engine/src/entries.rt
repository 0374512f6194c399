// The calls of an open day, one for each kind of entry.
ghost use Rattle.std.specs.Prelude.{◌≡◌};
ghost use Rattle.entry.specs.declared.Entry.{Entry};
ghost use Rattle.rules.specs.Calls.{Entered};
ghost use Rattle.engine.specs.Calls.{state_of};

use crate::OpenDay;
use board::Board;
use entry::refusals::Refusal;
use entry::{Entry, Params, Side};
use plan::Plan;

impl OpenDay {
    /// An order is announced. Mode 0 is main trading, and the board takes the order; mode 2 is negotiated deals.
    pub fn post<B: Board, P: Plan>(
        &mut self,
        board: &mut B,
        plan: &P,
        time: u32,
        side: Side,
        mode: u8,
        price: u32,
    ) -> Result<(), Refusal>
        ensures entered { Entered (P.Plan.hours plan.now) (state_of self.old (B.Board.book board.old)) (Entry.Post time side mode price) result (state_of self.new (B.Board.book board.new)) }
        ensures lent { B.Board.loans board.new ≡ B.Board.loans board.old }
    {
        self.enter(
            board,
            plan,
            Entry::Post {
                time,
                side,
                mode,
                price,
            },
        )
    }

    /// One order of main trading at that side and price is gone.
    pub fn leave<B: Board, P: Plan>(
        &mut self,
        board: &mut B,
        plan: &P,
        time: u32,
        side: Side,
        price: u32,
    ) -> Result<(), Refusal>
        ensures entered { Entered (P.Plan.hours plan.now) (state_of self.old (B.Board.book board.old)) (Entry.Leave time side price) result (state_of self.new (B.Board.book board.new)) }
        ensures lent { B.Board.loans board.new ≡ B.Board.loans board.old }
    {
        self.enter(board, plan, Entry::Leave { time, side, price })
    }

    /// A trade was made. Mode 0 is main trading, 1 the closing auction, 2 negotiated deals.
    pub fn trade<B: Board, P: Plan>(
        &mut self,
        board: &mut B,
        plan: &P,
        time: u32,
        mode: u8,
        price: u32,
        quantity: u32,
    ) -> Result<(), Refusal>
        ensures entered { Entered (P.Plan.hours plan.now) (state_of self.old (B.Board.book board.old)) (Entry.Trade time mode price quantity) result (state_of self.new (B.Board.book board.new)) }
        ensures lent { B.Board.loans board.new ≡ B.Board.loans board.old }
    {
        self.enter(
            board,
            plan,
            Entry::Trade {
                time,
                mode,
                price,
                quantity,
            },
        )
    }

    /// Time has gone on.
    pub fn clock<B: Board, P: Plan>(
        &mut self,
        board: &mut B,
        plan: &P,
        time: u32,
    ) -> Result<(), Refusal>
        ensures entered { Entered (P.Plan.hours plan.now) (state_of self.old (B.Board.book board.old)) (Entry.Clock time) result (state_of self.new (B.Board.book board.new)) }
        ensures lent { B.Board.loans board.new ≡ B.Board.loans board.old }
    {
        self.enter(board, plan, Entry::Clock { time })
    }

    /// The clearing house has set new risk parameters.
    pub fn parameters<B: Board, P: Plan>(
        &mut self,
        board: &mut B,
        plan: &P,
        time: u32,
        params: Params,
    ) -> Result<(), Refusal>
        ensures entered { Entered (P.Plan.hours plan.now) (state_of self.old (B.Board.book board.old)) (Entry.Parameters time params) result (state_of self.new (B.Board.book board.new)) }
        ensures lent { B.Board.loans board.new ≡ B.Board.loans board.old }
    {
        self.enter(board, plan, Entry::Parameters { time, params })
    }

    /// The reference price of a session, by its code.
    pub fn reference<B: Board, P: Plan>(
        &mut self,
        board: &mut B,
        plan: &P,
        time: u32,
        session: u8,
        price: u32,
    ) -> Result<(), Refusal>
        ensures entered { Entered (P.Plan.hours plan.now) (state_of self.old (B.Board.book board.old)) (Entry.Reference time session price) result (state_of self.new (B.Board.book board.new)) }
        ensures lent { B.Board.loans board.new ≡ B.Board.loans board.old }
    {
        self.enter(
            board,
            plan,
            Entry::Reference {
                time,
                session,
                price,
            },
        )
    }

    /// The exchange sets the quotation.
    pub fn ruling<B: Board, P: Plan>(
        &mut self,
        board: &mut B,
        plan: &P,
        time: u32,
        price: u32,
    ) -> Result<(), Refusal>
        ensures entered { Entered (P.Plan.hours plan.now) (state_of self.old (B.Board.book board.old)) (Entry.Ruling time price) result (state_of self.new (B.Board.book board.new)) }
        ensures lent { B.Board.loans board.new ≡ B.Board.loans board.old }
    {
        self.enter(board, plan, Entry::Ruling { time, price })
    }
}
