//! Numbers drawn from a seed, for what is tried many times over.
#![tactic(auto)]

pub mod random;
