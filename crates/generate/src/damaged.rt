//! Faults put into good routines and files.
use crate::rows::{any_in_range, displacement, plain, with_argument};
use crate::structured::structured;
use draws::random::Random;
use second::file::{check_of, written};
use second::operation::{
    ADD, DIV, DJMP, EQ, JF, JMP, LIT, LITF, LOAD, LT, MUL, NOP, NOT, OUT, STORE, SUB,
};
use second::routine::{MOST_ROWS, Routine, Row};
use std::alloc::{AllocError, Global};

/// The file of a good routine with a fault put in. A few faults do no harm.
pub fn damaged(heap: Global, random: &mut Random) -> Result<Vec<u8>, AllocError> {
    match random.below(20) {
        0 => nothing_much(heap, random),
        1..3 => of_many_rows(heap, random),
        3..12 => {
            let mut routine = structured(heap, random)?;
            spoil_rows(&mut routine, random)?;
            written(heap, &routine)
        }
        _ => {
            let routine = structured(heap, random)?;
            let bytes = written(heap, &routine)?;
            spoil_bytes(heap, bytes, random)
        }
    }
}

/// No byte, or a few.
fn nothing_much(heap: Global, random: &mut Random) -> Result<Vec<u8>, AllocError> {
    let mut bytes = Vec::new(heap);
    for _ in 0..random.below(3) {
        bytes.push(random.byte())?;
    }
    Ok(bytes)
}

/// As many rows as a unit may have, or one more.
fn of_many_rows(heap: Global, random: &mut Random) -> Result<Vec<u8>, AllocError> {
    let count = if random.chance(50) {
        MOST_ROWS
    } else {
        MOST_ROWS + 1
    };
    let Routine { locals, rows } = structured(heap, random)?;
    let mut many = Vec::new(heap);
    for _ in rows.len()..count {
        many.push(plain(NOP))?;
    }
    many.extend_from_slice(rows.as_slice())?;
    written(heap, &Routine { locals, rows: many })
}

/// Spoils one row, or the end.
fn spoil_rows(routine: &mut Routine, random: &mut Random) -> Result<(), AllocError> {
    let count = routine.rows.len();
    let place = random.index(count);
    let locals = routine.locals;
    if random.chance(12) {
        return Ok(routine.rows.push(plain(NOP))?);
    }
    if let Some(row) = routine.rows.get_mut(place) {
        *row = spoiled(*row, random, place, locals, count);
    }
    Ok(())
}

/// Another row for the one at a place, mostly one that may not stand there.
fn spoiled(row: Row, random: &mut Random, place: usize, locals: u8, count: usize) -> Row {
    match random.below(10) {
        8..10 => of_other_kind(row),
        0 => Row {
            operation: random.byte(),
            ..row
        },
        1 => Row {
            drops: 1 + random.below(255) as u8,
            ..row
        },
        2 => Row {
            argument: random.number(),
            ..row
        },
        3 => {
            let operation = random.choice(&[LOAD, STORE]).unwrap_or(LOAD);
            with_argument(
                operation,
                i32::from(locals).wrapping_add(random.below(3) as i32),
            )
        }
        4 => {
            let operation = random.choice(&[JMP, JF, DJMP]).unwrap_or(JMP);
            let target = if random.chance(50) { count } else { 0 };
            let beyond = if target == 0 { -1 } else { 0 };
            with_argument(operation, displacement(place, target).wrapping_add(beyond))
        }
        _ => any_in_range(random, place, locals, count),
    }
}

/// The row with a number where it had a flag, or the other way round.
fn of_other_kind(row: Row) -> Row {
    let operation = match row.operation {
        LIT => LITF,
        LITF => LIT,
        ADD | SUB | MUL | DIV => EQ,
        EQ | LT => ADD,
        LOAD => NOT,
        _ => OUT,
    };
    Row {
        operation,
        drops: row.drops,
        argument: if operation == LIT { row.argument } else { 0 },
    }
}

/// Spoils a file.
fn spoil_bytes(
    heap: Global,
    mut bytes: Vec<u8>,
    random: &mut Random,
) -> Result<Vec<u8>, AllocError> {
    let length = bytes.len();
    match random.below(12) {
        0 => bytes.truncate(length.saturating_sub(1 + random.index(12))),
        1 => bytes.truncate(length.saturating_sub(6)),
        2 => {
            for _ in 0..1 + random.below(7) {
                bytes.push(random.byte())?;
            }
        }
        3 => bytes.extend_from_slice(&[0, 0, 0, 0, 0, 0])?,
        4 => set(&mut bytes, random.index(length), random.byte()),
        5 => add_to(&mut bytes, length.saturating_sub(1)),
        6 => set_and_mend(&mut bytes, 0, random.below(3) as u8),
        7 => set_and_mend(&mut bytes, 1, random.below(20) as u8),
        8 => set_and_mend(&mut bytes, 2, 1),
        9 => set_and_mend(&mut bytes, 3, random.byte()),
        _ => {
            let place = random.index(length.saturating_sub(2));
            set_and_mend(&mut bytes, place, random.byte());
        }
    }
    Ok(bytes)
}

fn set(bytes: &mut Vec<u8>, index: usize, byte: u8) {
    if let Some(cell) = bytes.get_mut(index) {
        *cell = byte;
    }
}

fn set_and_mend(bytes: &mut Vec<u8>, index: usize, byte: u8) {
    set(bytes, index, byte);
    mend(bytes);
}

/// Puts the right check at the end.
fn mend(bytes: &mut Vec<u8>) {
    let [summed @ .., _, _] = bytes.as_slice() else {
        return;
    };
    let place = summed.len();
    let [high, low] = check_of(summed);
    set(bytes, place, high);
    set(bytes, place.saturating_add(1), low);
}

/// Raises a byte.
fn add_to(bytes: &mut Vec<u8>, index: usize) {
    if let Some(cell) = bytes.get_mut(index) {
        *cell = cell.wrapping_add(1);
    }
}
