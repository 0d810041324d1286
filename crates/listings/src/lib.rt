//! Listings: the locals and the words of a unit, right or wrong, as text.
#![tactic(auto)]

pub mod fault;
pub mod listing;
pub mod mnemonic;
pub mod number;
