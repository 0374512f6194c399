//! A day script, carried out line by line: each command is printed in its plain form, and then its result.
#![tactic(auto)]

mod boards;
mod plans;
pub mod report;
pub mod run;
