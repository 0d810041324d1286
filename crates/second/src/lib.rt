//! Another machine, solver, judge, set of rewrite rules and workspace for units of stack bytecode, to compare the library with.
//!
//! A proof says no more than its definitions. This crate reads the same rules a second time, in another style, so that a slip in one reading shows as a difference. It must never use a crate of the library, nor share a definition with one.
#![tactic(auto)]

pub mod arithmetic;
pub mod desk;
pub mod facts;
pub mod fault;
pub mod file;
mod guesses;
pub mod judge;
mod kinds;
mod lives;
pub mod machine;
pub mod operation;
pub mod routine;
pub mod rules;
mod sweeps;
#[cfg(test)]
mod tests;
pub mod value;
