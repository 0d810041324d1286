//! Routines of statements, which the verifier mostly accepts.
ghost use Rattle.std.specs.Prelude.{◌≤◌};

use crate::branches::{Open, close, open_if, open_loop};
use crate::draft::Draft;
use crate::rows::{LAST, displacement, plain, with_argument};
use draws::random::Random;
use second::operation::{DJMP, HALT, JMP};
use second::routine::{Routine, Row};
use std::alloc::{AllocError, Global};

/// How deep statements lie in one another at most.
const DEPTH: usize = 5;

/// A statement that has others in it.
#[derive(Clone, Copy)]
enum Compound {
    Branch,
    Loop,
}

/// A routine of statements.
pub fn structured(heap: Global, random: &mut Random) -> Result<Routine, AllocError> {
    let limit = limit(random);
    let locals = locals(random);
    let mut draft = Draft::new(heap, locals, limit);
    let mut open = Vec::new(heap);
    for _ in 0..3 * limit {
        let at_end = open.is_empty() && !draft.state.reached && random.chance(60);
        if draft.room() == 0 || at_end {
            break;
        }
        turn(&mut draft, random, &mut open)?;
    }
    for _ in 0..2 * DEPTH {
        close_last(&mut draft, random, &mut open)?;
    }
    end(&mut draft, random)?;
    let Draft { rows, .. } = draft;
    Ok(Routine { locals, rows })
}

/// How many rows there will be at most: few mostly.
fn limit(random: &mut Random) -> usize
    ensures { result ≤ 128 }
{
    let limit = match random.below(20) {
        0..10 => 1 + random.below(20),
        10..16 => 21 + random.below(40),
        16..18 => 61 + random.below(60),
        _ => 120 + random.below(9),
    };
    limit as usize
}

fn locals(random: &mut Random) -> u8 {
    let locals = match random.below(10) {
        0 => 0,
        1..8 => 1 + random.below(4),
        _ => 5 + random.below(12),
    };
    locals as u8
}

/// Writes a statement, or opens or closes one.
fn turn(draft: &mut Draft, random: &mut Random, open: &mut Vec<Open>) -> Result<(), AllocError> {
    if !draft.state.reached {
        if open.is_empty() || random.chance(30) {
            return draft.stray(random);
        }
        return close_last(draft, random, open);
    }
    match random.below(100) {
        0..22 => draft.step(random),
        22..42 => draft.compute(random),
        42..50 => draft.show(random),
        50..53 => draft.store_flag(random),
        53..55 if !open.is_empty() || random.chance(10) => draft.divide_by_zero(random),
        55..58 => draft.jump_over(random),
        58..74 => open_more(draft, random, open, Compound::Branch),
        74..86 => open_more(draft, random, open, Compound::Loop),
        86..88 if !open.is_empty() => halt(draft),
        _ => close_last(draft, random, open),
    }
}

fn open_more(
    draft: &mut Draft,
    random: &mut Random,
    open: &mut Vec<Open>,
    compound: Compound,
) -> Result<(), AllocError> {
    if open.len() >= DEPTH {
        return Ok(());
    }
    let opened = match compound {
        Compound::Branch => open_if(draft, random)?,
        Compound::Loop => open_loop(draft, random)?,
    };
    if let Some(opened) = opened {
        open.push(opened)?;
    }
    Ok(())
}

fn close_last(
    draft: &mut Draft,
    random: &mut Random,
    open: &mut Vec<Open>,
) -> Result<(), AllocError> {
    let Some(last) = open.pop() else {
        return Ok(());
    };
    if let Some(next) = close(draft, random, last)? {
        open.push(next)?;
    }
    Ok(())
}

/// Ends the run in the middle of the routine.
fn halt(draft: &mut Draft) -> Result<(), AllocError> {
    if draft.add(plain(HALT))? {
        draft.state.reached = false;
    }
    Ok(())
}

/// Ends the routine, where its last row does not already.
fn end(draft: &mut Draft, random: &mut Random) -> Result<(), AllocError> {
    let ends = draft
        .rows
        .last()
        .is_some_and(|row| LAST.contains(&row.operation));
    if ends && !draft.state.reached {
        return Ok(());
    }
    let row = last_row(draft, random);
    Ok(draft.rows.push(row)?)
}

/// HALT mostly, or a jump to the start where the stack comes to be empty by it.
fn last_row(draft: &Draft, random: &mut Random) -> Row {
    let to_start = displacement(draft.place(), 0);
    match draft.state.height {
        0 if random.chance(15) => with_argument(JMP, to_start),
        1 if random.chance(40) => with_argument(DJMP, to_start),
        _ => plain(HALT),
    }
}
