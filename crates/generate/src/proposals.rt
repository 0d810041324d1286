//! Changes to propose: those that a rule is likely to yield, and some others.
use crate::rows::{LAST, any_in_range, flag, number, plain, with_argument};
use draws::random::Random;
use second::arithmetic::computed;
use second::operation::{
    ADD, DIV, DJMP, DUP, EQ, HALT, JF, LIT, LITF, LOAD, LT, MUL, NOT, POP, STORE, SUB,
};
use second::routine::{MOST_LOCALS, MOST_ROWS, Row};
use second::value::Value;

/// The operations of the rows that a rule may change because of what is known.
const CHANGED: [u8; 11] = [DUP, LOAD, STORE, ADD, SUB, MUL, DIV, EQ, LT, NOT, JF];

/// A place and a row for it: one of the changes that the rules yield where only the unit was loaded, or a guess at one.
pub fn proposal(random: &mut Random, rows: &[Row], changes: &[(usize, Row)]) -> (usize, Row) {
    if random.chance(40)
        && let Some(change) = random.choice(changes)
    {
        return change;
    }
    let place = place(random, rows);
    let row = if random.chance(6) {
        any_in_range(random, place, MOST_LOCALS as u8, MOST_ROWS)
    } else {
        likely(random, rows, place)
    };
    (place, row)
}

/// A place, mostly one that a rule may change, seldom one past the end.
fn place(random: &mut Random, rows: &[Row]) -> usize {
    if random.chance(4) {
        return rows.len().saturating_add(random.index(3));
    }
    for _ in 0..6 {
        let place = random.index(rows.len());
        if follows_end(rows, place)
            || rows
                .get(place)
                .is_some_and(|row| CHANGED.contains(&row.operation))
        {
            return place;
        }
    }
    random.index(rows.len())
}

/// Whether the row before ends a straight line.
fn follows_end(rows: &[Row], place: usize) -> bool {
    before(rows, place, 1).is_some_and(|row| LAST.contains(&row.operation))
}

/// The row so many places before.
fn before(rows: &[Row], place: usize, by: usize) -> Option<Row> {
    rows.get(place.checked_sub(by)?).copied()
}

/// What a rule may well make of the row at a place.
fn likely(random: &mut Random, rows: &[Row], place: usize) -> Row {
    let Some(row) = rows.get(place).copied() else {
        return plain(HALT);
    };
    if follows_end(rows, place) && random.chance(60) || random.chance(10) {
        return plain(HALT);
    }
    match row.operation {
        STORE => plain(POP),
        JF if random.chance(50) => plain(POP),
        JF => with_argument(DJMP, row.argument),
        LOAD | DUP => literal(0, known_or_guess(random, rows, place)),
        NOT => literal(1, known_or_guess(random, rows, place)),
        ADD | SUB | MUL | DIV | EQ | LT => literal(2, known_or_guess(random, rows, place)),
        _ => plain(HALT),
    }
}

fn literal(drops: u8, value: Value) -> Row {
    match value {
        Value::Number(value) => number(drops, value),
        Value::Truth(value) => flag(drops, value),
    }
}

fn known_or_guess(random: &mut Random, rows: &[Row], place: usize) -> Value {
    match known(rows, place) {
        Some(value) if random.chance(90) => value,
        _ if random.chance(70) => Value::Number(random.number()),
        _ => Value::Truth(random.chance(50)),
    }
}

/// The top after the row at a place, where the literals before it tell.
fn known(rows: &[Row], place: usize) -> Option<Value> {
    let row = rows.get(place).copied()?;
    let top = before(rows, place, 1).and_then(pushed);
    match row.operation {
        DUP => top,
        NOT => match top? {
            Value::Truth(value) => Some(Value::Truth(!value)),
            Value::Number(_) => None,
        },
        LOAD => stored_before(rows, place, row.argument),
        operation => match (before(rows, place, 2).and_then(pushed)?, top?) {
            (Value::Number(first), Value::Number(second)) => computed(operation, first, second),
            _ => None,
        },
    }
}

/// The value that a literal pushes.
fn pushed(row: Row) -> Option<Value> {
    match row.operation {
        LIT => Some(Value::Number(row.argument)),
        LITF => Some(Value::Truth(row.argument != 0)),
        _ => None,
    }
}

/// The literal that was last stored into a local.
fn stored_before(rows: &[Row], place: usize, local: i32) -> Option<Value> {
    let store = with_argument(STORE, local);
    let at = rows.iter().take(place).rposition(|row| *row == store)?;
    before(rows, at, 1).and_then(pushed)
}
