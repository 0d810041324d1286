//! A workspace for one unit: its facts, and attempts to change it that are kept or abandoned.
#![tactic(auto)]

mod changes;
pub mod events;
mod found;
pub(crate) mod held;
pub mod policies;
pub mod refusal;
pub mod shown;
mod solutions;
mod trail;
pub mod workspace;
