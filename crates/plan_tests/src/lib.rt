//! Tests of the plans and the limits, at each edge of a window and of a limit.
#![tactic(auto)]

#[cfg(test)]
mod announced;
#[cfg(test)]
mod fixed;
#[cfg(test)]
mod limited;
#[cfg(test)]
mod shared;
