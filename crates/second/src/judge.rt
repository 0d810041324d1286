//! Whether a load accepts a file.
use crate::facts::{Kind, Shape};
use crate::fault::{Fault, Layer};
use crate::file::read;
use crate::kinds::objection;
use crate::operation::Misfit;
use crate::routine::Routine;
use crate::sweeps::solved;
use std::alloc::{AllocError, Global};

/// The routine that a load of these bytes holds, or the refusal, 3 to 8.
pub fn judged(heap: Global, bytes: &[u8]) -> Result<Result<Routine, Fault>, AllocError> {
    let routine = match read(heap, bytes)? {
        Ok(routine) => routine,
        Err(fault) => return Ok(Err(fault)),
    };
    let kinds = solved(heap, &routine)?;
    Ok(match lowest_objection(&routine, &kinds) {
        None => Ok(routine),
        Some((place, misfit)) => Err(Fault::at(Layer::Verifier, 8, place, misfit as u8)),
    })
}

/// The lowest place whose instruction is not applicable, and why: the first of those where the ways to the place fit together, if there is one, else of all.
fn lowest_objection(routine: &Routine, kinds: &Vec<Shape<Kind>>) -> Option<(usize, Misfit)> {
    let mut lowest_clash = None;
    for (place, (row, shape)) in routine.rows.iter().zip(kinds.iter()).enumerate() {
        match objection(*row, shape) {
            None => {}
            Some(Misfit::Clash) => {
                if lowest_clash.is_none() {
                    lowest_clash = Some((place, Misfit::Clash));
                }
            }
            Some(misfit) => return Some((place, misfit)),
        }
    }
    lowest_clash
}
