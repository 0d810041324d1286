//! Routines of instructions that do not know of each other.
use crate::rows::{LAST, OPERATIONS, any_in_range, flag, in_range, number, plain};
use crate::state::State;
use draws::random::Random;
use second::operation::{ADD, DJMP, DUP, EQ, HALT, IN, JF, JMP, NOP, NOT, POP, SWAP};
use second::routine::{Routine, Row};
use std::alloc::{AllocError, Global};

/// A routine whose words are mostly in range.
pub fn scattered(heap: Global, random: &mut Random) -> Result<Routine, AllocError> {
    let locals = random.below(5) as u8;
    let count = count(random);
    let mut rows = Vec::new(heap);
    for place in 0..count {
        rows.push(any_row(random, place, locals, count))?;
    }
    end(&mut rows, random)?;
    Ok(Routine { locals, rows })
}

/// A routine whose rows are each applicable where the ones before are done in a straight line, and whose jumps lead anywhere.
pub fn tangled(heap: Global, random: &mut Random) -> Result<Routine, AllocError> {
    let locals = 1 + random.below(4) as u8;
    let count = count(random);
    let mut rows = Vec::new(heap);
    let mut state = State::new();
    for place in 0..count {
        let (row, after) = applicable(random, place, locals, count, &state);
        rows.push(row)?;
        state = after;
    }
    end(&mut rows, random)?;
    Ok(Routine { locals, rows })
}

/// A routine that pushes about as many values as there may be.
pub fn tall(heap: Global, random: &mut Random) -> Result<Routine, AllocError> {
    let mut rows = Vec::new(heap);
    for _ in 0..7 + random.below(3) {
        let flag = flag(0, random.chance(50));
        let rest = random.choice(&[plain(IN), plain(DUP), flag]);
        let row = rest.filter(|_| !rows.is_empty());
        rows.push(row.unwrap_or(number(0, random.number())))?;
    }
    for place in 0..random.index(10) {
        let operation = random
            .choice(&[POP, ADD, EQ, NOT, DUP, SWAP])
            .unwrap_or(POP);
        rows.push(in_range(random, operation, place, 0, 0))?;
    }
    rows.push(plain(HALT))?;
    Ok(Routine { locals: 0, rows })
}

/// How many rows: few mostly, since a long routine of this sort is hardly ever accepted.
fn count(random: &mut Random) -> usize {
    let count = match random.below(10) {
        0..5 => random.below(6),
        5..9 => 4 + random.below(14),
        _ => 10 + random.below(110),
    };
    count as usize
}

/// Ends the rows mostly so that no run goes past them.
fn end(rows: &mut Vec<Row>, random: &mut Random) -> Result<(), AllocError> {
    let ends = rows.last().is_some_and(|row| LAST.contains(&row.operation));
    if rows.is_empty() || !ends && random.chance(95) {
        rows.push(plain(HALT))?;
    }
    Ok(())
}

/// A row whose words are in range but for a few.
fn any_row(random: &mut Random, place: usize, locals: u8, count: usize) -> Row {
    let mut row = any_in_range(random, place, locals, count);
    match random.below(100) {
        0 => row.operation = random.byte(),
        1 => row.drops = random.byte(),
        2 => row.argument = random.number(),
        _ => {}
    }
    row
}

/// A row that is applicable, and the state after it.
fn applicable(
    random: &mut Random,
    place: usize,
    locals: u8,
    count: usize,
    state: &State,
) -> (Row, State) {
    for _ in 0..12 {
        let operation = if random.chance(15) {
            random.choice(&[JF, JF, JF, JMP, DJMP]).unwrap_or(JF)
        } else {
            random.below(OPERATIONS) as u8
        };
        let row = in_range(random, operation, place, locals, count);
        if let Some(after) = state.after(row) {
            return (row, after);
        }
    }
    (plain(NOP), *state)
}
