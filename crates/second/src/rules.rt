//! The four rewrite rules.
use crate::facts::{Facts, Guess, Shape, facts_of};
use crate::lives::bit;
use crate::operation::{
    ADD, DIV, DJMP, DUP, EQ, HALT, JF, LIT, LITF, LOAD, LT, MUL, NOT, POP, STORE, SUB,
};
use crate::routine::{MOST_ROWS, Routine, Row};
use crate::sweeps::{Way, carried};
use crate::value::Value;
use std::alloc::{AllocError, Global};

/// More changes than a routine can have: each lowers its weight, which is at most 2 for each row.
const MOST_CHANGES: usize = 2 * MOST_ROWS;

/// What the rules make of the row at a place, with the rule's number, rising.
pub fn yielded(
    heap: Global,
    routine: &Routine,
    facts: &Facts,
    place: usize,
) -> Result<Vec<(u8, Row)>, AllocError> {
    let mut yielded = Vec::new(heap);
    let (Some(row), Some(shape), Some(live)) = (
        routine.rows.get(place),
        facts.guesses.get(place),
        facts.lives.get(place),
    ) else {
        return Ok(yielded);
    };
    let made = [
        unreached(*row, shape),
        known_result(heap, *row, shape)?,
        known_branch(*row, shape),
        dead_store(*row, *live),
    ];
    for (number, made) in (1u8..).zip(made) {
        if let Some(made) = made {
            yielded.push((number, made))?;
        }
    }
    Ok(yielded)
}

/// A row without a drop count.
fn plain(operation: u8, argument: i32) -> Row {
    Row {
        operation,
        drops: 0,
        argument,
    }
}

/// Rule 1: an instruction that no run reaches, by the constants, ends the run.
fn unreached(row: Row, shape: &Shape<Guess>) -> Option<Row> {
    match shape {
        Shape::Nowhere if row.operation != HALT => Some(plain(HALT, 0)),
        _ => None,
    }
}

/// Rule 2: an instruction whose result is known is a literal in place of what it takes.
fn known_result(heap: Global, row: Row, shape: &Shape<Guess>) -> Result<Option<Row>, AllocError> {
    let drops = match row.operation {
        LOAD | DUP => 0,
        NOT => 1,
        ADD | SUB | MUL | DIV | EQ | LT => 2,
        _ => return Ok(None),
    };
    let after = carried(heap, row, Way::Follow, shape)?;
    Ok(match top(&after) {
        Some(Value::Number(number)) => Some(Row {
            operation: LIT,
            drops,
            argument: number,
        }),
        Some(Value::Truth(flag)) => Some(Row {
            operation: LITF,
            drops,
            argument: i32::from(flag),
        }),
        None => None,
    })
}

/// Rule 3: a branch on a known flag drops it, and jumps always or never.
fn known_branch(row: Row, shape: &Shape<Guess>) -> Option<Row> {
    if row.operation != JF {
        return None;
    }
    match top(shape) {
        Some(Value::Truth(true)) => Some(plain(POP, 0)),
        Some(Value::Truth(false)) => Some(plain(DJMP, row.argument)),
        _ => None,
    }
}

/// Rule 4: a store into a local that is not read again drops its value.
fn dead_store(row: Row, live: u16) -> Option<Row> {
    if row.operation == STORE && live & bit(row) == 0 {
        Some(plain(POP, 0))
    } else {
        None
    }
}

/// The value on top of the stack, where it is known.
fn top(shape: &Shape<Guess>) -> Option<Value> {
    let Shape::At { stack, .. } = shape else {
        return None;
    };
    match stack.last() {
        Some(Guess::Exactly(value)) => Some(*value),
        _ => None,
    }
}

/// The routine with the lowest rule applied at the lowest place until none applies, and how often that was.
pub fn tidied(heap: Global, routine: &Routine) -> Result<(Routine, usize), AllocError> {
    let mut tidy = routine.clone()?;
    for changes in 0..MOST_CHANGES {
        let Some((place, row)) = first_change(heap, &tidy)? else {
            return Ok((tidy, changes));
        };
        replace(&mut tidy, place, row);
    }
    Ok((tidy, MOST_CHANGES))
}

/// The lowest place at which a rule yields something, and what the lowest such rule yields.
fn first_change(heap: Global, routine: &Routine) -> Result<Option<(usize, Row)>, AllocError> {
    let facts = facts_of(heap, routine)?;
    for place in 0..routine.rows.len() {
        if let Some((_, row)) = yielded(heap, routine, &facts, place)?.first() {
            return Ok(Some((place, *row)));
        }
    }
    Ok(None)
}

/// Puts a row at a place.
pub(crate) fn replace(routine: &mut Routine, place: usize, row: Row) {
    if let Some(slot) = routine.rows.get_mut(place) {
        *slot = row;
    }
}
