//! The rules of a day: the figures that a day holds, what each entry is answered and changes, and what follows from that for every list of entries.
#![tactic(auto)]

pub mod figures;
pub mod promise;
