//! What a feed means: the layout of its records, what reading and writing answer, and the laws between them.
#![tactic(auto)]

pub mod examples;
pub mod kinds;
