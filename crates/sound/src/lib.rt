//! What the facts of a routine mean for its runs.
#![tactic(auto)]

pub mod laws;
pub mod live;
