//! Why the rules may be applied: they keep the whole answer of every run, and units that are accepted.
#![tactic(auto)]

pub mod laws;
