//! The analyses of a routine for the solver, over its edges, and the verifier.
#![tactic(auto)]

mod chains;
pub mod constants;
pub mod edge;
mod edges;
pub mod graph;
pub mod laws;
pub mod live;
pub mod solution;
#[cfg(test)]
mod tests;
pub mod types;
#[cfg(test)]
mod unit_tests;
pub mod verify;
mod ways;
