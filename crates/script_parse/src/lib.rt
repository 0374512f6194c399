//! A line of a day script, read: what it asks for, or why it cannot be read.
#![tactic(auto)]

mod entries;
pub mod parse;
