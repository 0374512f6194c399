//! The lines of a script and the words of a line, taken one after another, and the figures that words write.
#![tactic(auto)]

pub mod lines;
pub mod words;
