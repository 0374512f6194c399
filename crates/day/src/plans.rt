// The commands for plans.
use crate::report::{Answer, Halt, OutOfPlace};
use entry::refusals::Refusal;
use plan::announced::AnnouncedPlan;
use plan::announced::calls::MOST_WINDOWS;
use plan::fixed::FixedPlan;
use plan::{Announcement, Plan, Slot, Window};
use script::command::PlanCommand;
use std::alloc::{AllocError, Global};

// One match tells the three apart; an `Option` of the other two would be matched twice.
/// The plan that a script has: none yet, a fixed one, or the windows announced so far.
#[derive(Drop)]
pub(crate) enum Timetable {
    Empty,
    Fixed(FixedPlan),
    Announced(Vec<Announcement>),
}

// The plan of the windows announced so far, over the records handed over. It is made anew for each command, since a plan lives no
// longer than its records.
fn announced<'a>(
    records: &'a mut [Window; MOST_WINDOWS],
    windows: &[Announcement],
) -> AnnouncedPlan<'a> {
    let mut plan = AnnouncedPlan::new(records);
    for window in windows {
        let _accepted = plan.window(*window);
    }
    plan
}

impl Timetable {
    // Makes a fixed plan. A refused one keeps the plan that there was.
    fn fixed(&mut self, days: u32, group: u32) -> Result<(), Refusal> {
        *self = Timetable::Fixed(FixedPlan::new(days, group)?);
        Ok(())
    }

    // Announces a window.
    fn window(&mut self, asked: Announcement) -> Result<Answer, Halt> {
        let Timetable::Announced(windows) = self else {
            return Err(OutOfPlace::NoAnnouncedPlan.into());
        };
        let mut records = [Window::default(); MOST_WINDOWS];
        let outcome = announced(&mut records, windows.as_slice()).window(asked);
        if outcome.is_ok() {
            windows.push(asked).map_err(AllocError::from)?;
        }
        Ok(Answer::Done(outcome))
    }

    // The slot at a time.
    fn slot(&self, time: u32) -> Result<Slot, Halt> {
        match self {
            Timetable::Empty => Err(OutOfPlace::NoPlan.into()),
            Timetable::Fixed(plan) => Ok(plan.slot(time)),
            Timetable::Announced(windows) => {
                let mut records = [Window::default(); MOST_WINDOWS];
                Ok(announced(&mut records, windows.as_slice()).slot(time))
            }
        }
    }

    /// What a command for plans is answered.
    pub(crate) fn answer(&mut self, heap: Global, command: PlanCommand) -> Result<Answer, Halt> {
        match command {
            PlanCommand::Fixed { days, group } => Ok(Answer::Done(self.fixed(days, group))),
            PlanCommand::Announced => {
                *self = Timetable::Announced(Vec::new(heap));
                Ok(Answer::Done(Ok(())))
            }
            PlanCommand::Window(asked) => self.window(asked),
            PlanCommand::Session { time } => Ok(Answer::Slot(self.slot(time)?)),
        }
    }
}
