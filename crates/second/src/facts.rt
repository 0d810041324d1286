//! What holds at each place: types, constants and live locals.
use crate::lives::lives_of;
use crate::routine::Routine;
use crate::sweeps::solved;
use crate::value::Value;
use std::alloc::{AllocError, Global};

/// What kind of value a cell has.
#[derive(Clone, Copy, PartialEq, Eq, Debug)]
pub enum Kind {
    Number,
    Truth,
    Unusable,
}

/// Which value a cell has.
#[derive(Clone, Copy, PartialEq, Eq, Debug)]
pub enum Guess {
    Exactly(Value),
    Anything,
}

/// What is known before a place: no run comes there, what comes there does not fit together, or a stack, bottom first, and 16 locals.
#[derive(Clone, PartialEq, Eq, Debug, Drop)]
pub enum Shape<C> {
    Nowhere,
    Mixed,
    At { stack: Vec<C>, locals: Vec<C> },
}

/// The facts, one of each for each place. Bit i of a set of live locals stands for local i, and the set is of those live after the place.
#[derive(Clone, PartialEq, Eq, Debug, Drop)]
pub struct Facts {
    pub kinds: Vec<Shape<Kind>>,
    pub guesses: Vec<Shape<Guess>>,
    pub lives: Vec<u16>,
}

/// The least solutions for a routine.
pub fn facts_of(heap: Global, routine: &Routine) -> Result<Facts, AllocError> {
    Ok(Facts {
        kinds: solved(heap, routine)?,
        guesses: solved(heap, routine)?,
        lives: lives_of(heap, routine)?,
    })
}
