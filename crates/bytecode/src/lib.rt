//! Stack bytecode: instructions, the unit of one routine, and the unit file read and written.
#![tactic(auto)]

pub mod fault;
pub mod instr;
pub mod jump;
mod parts;
pub mod read;
pub mod rules;
pub mod site;
pub mod sum;
#[cfg(test)]
mod tests;
pub mod unit;
pub mod word;
pub mod write;
