//! What the lines of a day script ask for, and their plain form.
#![tactic(auto)]

pub mod command;
pub mod faults;
pub mod print;
