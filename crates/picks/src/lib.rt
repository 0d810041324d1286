//! Pick policies that are chosen while a program runs, one of which takes by a seed.
#![tactic(auto)]

pub mod pick;
pub mod seeded;
