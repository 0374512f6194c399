// Orders of main trading: one more, and one less.
ghost use Rattle.std.specs.Prelude.{◌≡◌};
ghost use Rattle.entry.specs.declared.Entry.{Entry};
ghost use Rattle.rules.specs.Checks.{checked};
ghost use Rattle.rules.specs.Effects.{ended};
ghost use Rattle.engine.specs.Calls.{state_of, after_checked};

use crate::OpenDay;
use crate::checks::kept_apart;
use board::{Board, Level};
use entry::Side;
use entry::refusals::Refusal;
use plan::Plan;
use rules::figures::{Forerunner, Forerunners, OpenFigures};

impl OpenDay {
    // An order whose price is in range. The quotation is read before the board takes the order.
    pub(crate) fn add_order<B: Board, P: Plan>(
        &mut self,
        board: &mut B,
        plan: &P,
        time: u32,
        side: Side,
        price: u32,
    ) -> Result<(), Refusal>
        ensures answer { result ≡ checked (P.Plan.hours plan.now) (state_of self.old (B.Board.book board.old)) (Entry.Post time side 0 price) }
        ensures after { state_of self.new (B.Board.book board.new) ≡ after_checked (P.Plan.hours plan.now) (state_of self.old (B.Board.book board.old)) (Entry.Post time side 0 price) }
        ensures lent { B.Board.loans board.new ≡ B.Board.loans board.old }
    {
        let slot = self.listed(plan, time, price)?;
        let quotation = self.quotation_at(board, time);
        self.in_side(side, price, quotation, slot)?;
        kept_apart(board, side, price)?;
        board.add(side, price, time)?;
        self.figures = self.figures.at(time, quotation);
        Ok(())
    }

    // An order less, at a price in range. The quotation and the best level are read before the board takes the order away.
    pub(crate) fn take_order<B: Board, P: Plan>(
        &mut self,
        board: &mut B,
        plan: &P,
        time: u32,
        side: Side,
        price: u32,
    ) -> Result<(), Refusal>
        ensures answer { result ≡ checked (P.Plan.hours plan.now) (state_of self.old (B.Board.book board.old)) (Entry.Leave time side price) }
        ensures after { state_of self.new (B.Board.book board.new) ≡ after_checked (P.Plan.hours plan.now) (state_of self.old (B.Board.book board.old)) (Entry.Leave time side price) }
        ensures lent { B.Board.loans board.new ≡ B.Board.loans board.old }
    {
        self.on_time(time)?;
        let quotation = self.quotation_at(board, time);
        let best = board.best(side);
        board.take(side, price)?;
        self.figures = OpenFigures {
            forerunners: self.forerunners_after(side, price, time, best),
            ..self.figures.at(time, quotation)
        };
        Ok(())
    }

    // The forerunners after an order leaves: the last order of its side's best level makes that level the side's forerunner.
    fn forerunners_after(
        &self,
        side: Side,
        price: u32,
        time: u32,
        best: Option<Level>,
    ) -> Forerunners
        ensures { result ≡ ended self.now.figures.forerunners side price time best }
    {
        let forerunners = self.figures.forerunners;
        match best {
            Some(level) if level.price == price && level.orders == 1 => {
                let ended = Forerunner {
                    price,
                    since: level.since,
                    life: time.saturating_sub(level.since),
                };
                forerunners.with(side, Some(ended))
            }
            _ => forerunners,
        }
    }
}
