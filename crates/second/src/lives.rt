//! Which locals are read after a place before they are written, by sweeps from the last place to the first.
use crate::operation::{LOAD, STORE, following, jumped, local};
use crate::routine::{MOST_LOCALS, Routine, Row};
use crate::sweeps::MOST_SWEEPS;
use std::alloc::{AllocError, Global};

/// The locals live after each place.
pub fn lives_of(heap: Global, routine: &Routine) -> Result<Vec<u16>, AllocError> {
    let mut lives = vec![in heap; 0; routine.rows.len()]?;
    for _ in 0..MOST_SWEEPS {
        if !sweep(routine, &mut lives) {
            break;
        }
    }
    Ok(lives)
}

/// Finds each set anew from those of the places that run next; whether one changed.
fn sweep(routine: &Routine, lives: &mut Vec<u16>) -> bool {
    let mut changed = false;
    for (place, row) in routine.rows.iter().enumerate().rev() {
        let after = live_before(routine, lives, following(*row, place))
            | live_before(routine, lives, jumped(*row, place));
        if let Some(live) = lives.get_mut(place) {
            changed = changed || *live != after;
            *live = after;
        }
    }
    changed
}

/// The locals live before a place; none where there is no such place.
fn live_before(routine: &Routine, lives: &Vec<u16>, place: Option<usize>) -> u16 {
    let Some(place) = place else {
        return 0;
    };
    match (routine.rows.get(place), lives.get(place)) {
        (Some(row), Some(after)) => through(*row, *after),
        _ => 0,
    }
}

/// The locals live before an instruction, by those live after it.
fn through(row: Row, after: u16) -> u16 {
    match row.operation {
        LOAD => after | bit(row),
        STORE => after & !bit(row),
        _ => after,
    }
}

/// The bit of the local that an instruction names.
pub fn bit(row: Row) -> u16 {
    match local(row) {
        Some(local) if local < MOST_LOCALS => 1 << local,
        _ => 0,
    }
}
