//! The four rewrite rules: what each makes of an instruction, by the facts at its place.
#![tactic(auto)]

pub mod change;
pub mod laws;
pub mod rule;
#[cfg(test)]
mod tests;
pub mod yields;
