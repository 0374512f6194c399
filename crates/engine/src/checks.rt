// The checks that an entry meets after its ranges, each with its refusal.
ghost use Rattle.std.specs.Prelude.{◌≡◌, IfOk};
ghost use Rattle.plan.specs.Hours.{slot_at};
ghost use Rattle.rules.specs.Checks.{on_time, in_session, in_static, in_dynamic, in_side, apart, listed, must, within};
ghost use Rattle.engine.specs.Calls.{answer_of};

use crate::OpenDay;
use crate::ranges::LAST_TIME;
use board::Board;
use entry::Side;
use entry::refusals::Refusal;
use limits::static_limits;
use plan::{Plan, Slot};

impl OpenDay {
    // The time is not below that of the last accepted entry, nor past the end of the day.
    pub(crate) fn on_time(&self, time: u32) -> Result<(), Refusal>
        ensures { result ≡ on_time self.now.figures time }
    {
        if (self.figures.time..=LAST_TIME).contains(&time) {
            Ok(())
        } else {
            Err(Refusal::BadTime)
        }
    }

    // An order or a trade of any mode is held to both static limits.
    fn in_static(&self, price: u32) -> Result<(), Refusal>
        ensures { result ≡ in_static self.now.figures price }
    {
        held_to(
            static_limits(self.figures.params),
            price,
            Refusal::OutsideStatic,
        )
    }

    // Time, session and static limits, which orders and trades of every mode meet. The plan is asked once, and its slot handed on.
    pub(crate) fn listed<P: Plan>(&self, plan: &P, time: u32, price: u32) -> Result<Slot, Refusal>
        ensures answer { answer_of result ≡ listed (P.Plan.hours plan.now) self.now.figures time price }
        ensures slot { IfOk result (λ s. s ≡ slot_at (P.Plan.hours plan.now) time) }
    {
        self.on_time(time)?;
        let slot = plan.slot(time);
        in_session(slot)?;
        self.in_static(price)?;
        Ok(slot)
    }

    // A trade is held to both dynamic limits.
    pub(crate) fn in_dynamic(&self, price: u32, quotation: u32, slot: Slot) -> Result<(), Refusal>
        ensures { result ≡ in_dynamic self.now.figures price quotation slot }
    {
        held_to(
            self.dynamic(quotation, slot),
            price,
            Refusal::OutsideDynamic,
        )
    }

    // A buy is held to the upper dynamic limit, a sell to the lower one. The arms test different limits, so one test would have to
    // choose the limit by the side first.
    pub(crate) fn in_side(
        &self,
        side: Side,
        price: u32,
        quotation: u32,
        slot: Slot,
    ) -> Result<(), Refusal>
        ensures { result ≡ in_side self.now.figures side price quotation slot }
    {
        let (lower, upper) = self.dynamic(quotation, slot);
        match side {
            Side::Buy if price as u64 > upper => Err(Refusal::OutsideDynamic),
            Side::Sell if (price as u64) < lower => Err(Refusal::OutsideDynamic),
            _ => Ok(()),
        }
    }
}

// A price is held to a lower and an upper limit, and may be equal to either.
fn held_to(limits: (u64, u64), price: u32, otherwise: Refusal) -> Result<(), Refusal>
    ensures { result ≡ must (within price limits) otherwise }
{
    let (lower, upper) = limits;
    if (lower..=upper).contains(&(price as u64)) {
        Ok(())
    } else {
        Err(otherwise)
    }
}

// The plan has a session, free or bounded, at the entry's time.
fn in_session(slot: Slot) -> Result<(), Refusal>
    ensures { result ≡ in_session slot }
{
    match slot {
        Slot::NoSession => Err(Refusal::NoSession),
        Slot::Free(_) | Slot::Bounded(_, _) => Ok(()),
    }
}

// An order must not meet the best level of the other side: to its own side that level's price is better.
pub(crate) fn kept_apart<B: Board>(board: &B, side: Side, price: u32) -> Result<(), Refusal>
    ensures { result ≡ apart (B.Board.book board.now) side price }
{
    match board.best(side.other()) {
        Some(level) if !side.betters(level.price, price) => Err(Refusal::Crosses),
        _ => Ok(()),
    }
}
