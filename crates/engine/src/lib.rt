//! The days of a security: an open day judges and applies entries, and a closed day keeps what the next day starts from.
#![tactic(auto)]

mod applying;
mod checks;
pub mod closing;
pub mod entries;
mod notices;
pub mod opening;
mod orders;
pub mod quoting;
mod ranges;
mod readings;
pub mod run;
mod trades;

use rules::figures::{ClosedFigures, OpenFigures};

/// A closed day. It is moved on, and can be neither copied nor dropped.
pub struct ClosedDay {
    figures: ClosedFigures,
}

// Board and plan come with each call and not as one value with the day, since board and day are changed by calls of their own.
// So the clauses name all three: a shorter word for them would take as many arguments.
/// An open day, which takes entries. It is moved on, and can be neither copied nor dropped.
pub struct OpenDay {
    figures: OpenFigures,
}
