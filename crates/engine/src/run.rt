// A list of entries applied in order, with a trail line for each.
ghost use Rattle.std.specs.Prelude.{◌≡◌};
ghost use Rattle.rules.specs.Runs.{line_of};
ghost use Rattle.rules.specs.Calls.{Ran};
ghost use Rattle.engine.specs.Calls.{state_of};

use crate::OpenDay;
use board::Board;
use entry::Entry;
use entry::refusals::Refusal;
use plan::Plan;
use rules::figures::TrailLine;

impl OpenDay {
    // The trail line of an answer, after the entry. A conversion from a `Result` would have the same two arms, and a `map` more.
    fn line(&self, answer: Result<(), Refusal>) -> TrailLine
        ensures { result ≡ line_of answer self.now.figures.quotation }
    {
        match answer {
            Ok(()) => TrailLine {
                answer: 0,
                quotation: self.figures.quotation,
            },
            Err(refusal) => TrailLine {
                answer: refusal.number(),
                quotation: 0,
            },
        }
    }

    /// Applies the entries in order, and writes the trail line of each at the entry's own place. A refused entry does not end the
    /// run. A trail with fewer lines than there are entries is refused before anything else.
    pub fn run<B: Board, P: Plan>(
        &mut self,
        board: &mut B,
        plan: &P,
        entries: &[Entry],
        trail: &mut [TrailLine],
    ) -> Result<(), Refusal>
        ensures ran { Ran (P.Plan.hours plan.now) (state_of self.old (B.Board.book board.old)) entries.now trail.old result (state_of self.new (B.Board.book board.new)) trail.new }
        ensures lent { B.Board.loans board.new ≡ B.Board.loans board.old }
    {
        if trail.len() < entries.len() {
            return Err(Refusal::TrailShort);
        }
        // The project fixes this form: the entries are counted, and each line is written at its entry's own place.
        for (i, entry) in entries.iter().enumerate() {
            let answer = self.apply(board, plan, *entry);
            trail[i] = self.line(answer);
        }
        Ok(())
    }
}
