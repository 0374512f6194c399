//! The feed: entries as bit-packed records, written and read.
#![tactic(auto)]

mod cursor;
pub mod reader;
pub mod record;
pub mod whole;
mod words;
