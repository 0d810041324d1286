//! Unit files, inputs and lists of calls from a seed, to compare two workspaces on. The same seed gives the same ones.
#![tactic(auto)]

mod branches;
mod damaged;
mod draft;
mod history;
mod made;
mod phrases;
mod proposals;
mod rows;
mod scattered;
mod state;
mod structured;

pub use crate::history::calls;
pub use crate::made::{Made, Sort, file, inputs};
