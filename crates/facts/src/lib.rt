//! What is known before and after each place of a routine: type frames, constant frames and sets of live locals, and how an instruction carries them.
#![tactic(auto)]

pub mod cell;
pub mod cells;
pub mod constants;
mod effect;
pub mod frame;
pub mod live;
pub mod reason;
pub mod types;
