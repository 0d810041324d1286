//! Data-flow analyses over at most 128 nodes, the solver that finds their least solutions, and the policies that pick nodes for it.
#![tactic(auto)]

pub mod analysis;
pub mod fault;
pub mod first_in;
pub mod highest;
pub mod laws;
pub mod policy;
#[cfg(test)]
mod policy_tests;
pub mod solve;
#[cfg(test)]
mod solve_tests;
