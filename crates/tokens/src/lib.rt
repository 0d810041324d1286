//! Two workspaces for a program, and the unspent tokens of their attempts: each can be named by its depth, and all can be spent at the end.
#![tactic(auto)]

mod desk;
mod desks;
pub mod fault;
pub mod pick;
pub mod side;
pub mod spend;
pub mod table;
mod token;
