//! What the program's commands do with values: no file is read and nothing is printed here.
#![tactic(auto)]

pub mod encoding;
pub mod listing;
pub mod request;
