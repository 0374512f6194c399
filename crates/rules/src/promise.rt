// The promise and the worked examples: each function does nothing, and its contract is the theorem.
ghost use Rattle.rules.specs.Promise.{Promised};
ghost use Rattle.rules.specs.Worked.{Worked};

/// From every opening that is not refused, over every plan and every board, after every list of calls: each entry was answered as
/// the table of refusals says, no limit was passed, the quotation moved on grounds alone, day and board are what the accepted
/// entries say, and refused entries left no trace.
pub fn promised()
    ensures promise { Promised }
{}

/// The worked examples follow from the written meaning.
pub fn worked()
    ensures examples { Worked }
{}
