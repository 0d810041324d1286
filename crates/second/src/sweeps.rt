//! Types and constants by sweeps over all places in rising order, until a sweep changes nothing.
use crate::facts::Shape;
use crate::operation::{DUP, LOAD, STORE, SWAP, TALLEST, following, jumped, local, taken};
use crate::routine::{MOST_LOCALS, MOST_ROWS, Routine, Row};
use std::alloc::{AllocError, Global};
use std::mem;

/// How often a shape changes at most: once to hold cells, each cell once, and once to be mixed.
const MOST_SHAPE_CHANGES: usize = TALLEST + MOST_LOCALS + 2;

/// More sweeps than can change something. A set of live locals changes less often than a shape.
pub const MOST_SWEEPS: usize = MOST_ROWS * (MOST_SHAPE_CHANGES + 1);

/// The two ways on from an instruction.
#[derive(Clone, Copy, PartialEq, Eq, Debug)]
pub enum Way {
    Follow,
    Jump,
}

/// What goes on from an instruction along a way.
#[derive(Clone, Copy)]
pub enum Passed<C> {
    Nothing,
    Clash,
    /// The instruction is done. The cell is the value that it computes, where it computes one; a value that it only moves is not told.
    Changed(Option<C>),
}

/// What a cell of a stack or a local may be.
pub trait Cell: Copy + Drop {
    /// What the locals are at first.
    const UNSET: Self;

    /// What covers this cell and the other, where this one does not.
    fn widened(self, other: Self) -> Option<Self>;

    /// What goes on from an instruction, by the stack and the locals before it.
    fn passed(row: Row, way: Way, stack: &[Self], locals: &[Self]) -> Passed<Self>;
}

/// The least shapes that the instructions carry into one another from an empty stack at place 0.
pub fn solved<C: Cell>(heap: Global, routine: &Routine) -> Result<Vec<Shape<C>>, AllocError> {
    let mut shapes = Vec::with_capacity(heap, routine.rows.len())?;
    for place in 0..routine.rows.len() {
        shapes.push(if place == 0 {
            entry(heap)?
        } else {
            Shape::Nowhere
        })?;
    }
    for _ in 0..MOST_SWEEPS {
        if !sweep(heap, routine, &mut shapes)? {
            break;
        }
    }
    Ok(shapes)
}

/// The shape of place 0.
fn entry<C: Cell>(heap: Global) -> Result<Shape<C>, AllocError> {
    let mut locals = Vec::with_capacity(heap, MOST_LOCALS)?;
    for _ in 0..MOST_LOCALS {
        locals.push(C::UNSET)?;
    }
    Ok(Shape::At {
        stack: Vec::new(heap),
        locals,
    })
}

/// Carries each shape along the ways on from its place; whether one changed.
fn sweep<C: Cell>(
    heap: Global,
    routine: &Routine,
    shapes: &mut Vec<Shape<C>>,
) -> Result<bool, AllocError> {
    let mut changed = false;
    for (place, row) in routine.rows.iter().enumerate() {
        for way in [Way::Follow, Way::Jump] {
            let end = match way {
                Way::Follow => following(*row, place),
                Way::Jump => jumped(*row, place),
            };
            if let Some(end) = end {
                changed |= pass(heap, *row, way, shapes, place, end)?;
            }
        }
    }
    Ok(changed)
}

/// Carries the shape of a place along one way to its end; whether the shape there changed.
fn pass<C: Cell>(
    heap: Global,
    row: Row,
    way: Way,
    shapes: &mut Vec<Shape<C>>,
    place: usize,
    end: usize,
) -> Result<bool, AllocError> {
    let Some(shape) = shapes.get(place) else {
        return Ok(false);
    };
    let arriving = carried(heap, row, way, shape)?;
    let Some(slot) = shapes.get_mut(end) else {
        return Ok(false);
    };
    let (shape, changed) = joined(mem::replace(slot, Shape::Nowhere), arriving);
    *slot = shape;
    Ok(changed)
}

/// The shape that an instruction makes of the one before it.
pub fn carried<C: Cell>(
    heap: Global,
    row: Row,
    way: Way,
    shape: &Shape<C>,
) -> Result<Shape<C>, AllocError> {
    let Shape::At { stack, locals } = shape else {
        return Ok(match shape {
            Shape::Mixed => Shape::Mixed,
            _ => Shape::Nowhere,
        });
    };
    match C::passed(row, way, stack.as_slice(), locals.as_slice()) {
        Passed::Nothing => Ok(Shape::Nowhere),
        Passed::Clash => Ok(Shape::Mixed),
        Passed::Changed(given) => {
            let mut after = Vec::with_capacity(heap, TALLEST)?;
            after.extend_from_slice(stack.as_slice())?;
            let mut locals = Vec::from_slice(heap, locals.as_slice())?;
            perform(row, given, &mut after, &mut locals)?;
            Ok(Shape::At {
                stack: after,
                locals,
            })
        }
    }
}

/// Does an applicable instruction on cells.
fn perform<C: Cell>(
    row: Row,
    given: Option<C>,
    stack: &mut Vec<C>,
    locals: &mut Vec<C>,
) -> Result<(), AllocError> {
    match row.operation {
        DUP => {
            if let Some(top) = stack.last().copied() {
                stack.push(top)?;
            }
        }
        SWAP => {
            if let (Some(top), Some(second)) = (stack.pop(), stack.pop()) {
                stack.push(top)?;
                stack.push(second)?;
            }
        }
        LOAD => {
            if let Some(cell) = local(row).and_then(|local| locals.get(local).copied()) {
                stack.push(cell)?;
            }
        }
        STORE => {
            if let (Some(top), Some(local)) = (stack.pop(), local(row))
                && let Some(slot) = locals.get_mut(local)
            {
                *slot = top;
            }
        }
        _ => {
            stack.truncate(stack.len().saturating_sub(taken(row)));
            if let Some(cell) = given {
                stack.push(cell)?;
            }
        }
    }
    Ok(())
}

/// The least shape that covers both, and whether it is another than the first.
fn joined<C: Cell>(old: Shape<C>, arriving: Shape<C>) -> (Shape<C>, bool) {
    match (old, arriving) {
        (old, Shape::Nowhere) => (old, false),
        (Shape::Nowhere, arriving) => (arriving, true),
        (Shape::Mixed, _) => (Shape::Mixed, false),
        (Shape::At { .. }, Shape::Mixed) => (Shape::Mixed, true),
        (
            Shape::At {
                mut stack,
                mut locals,
            },
            Shape::At {
                stack: other_stack,
                locals: other_locals,
            },
        ) => {
            if stack.len() != other_stack.len() {
                return (Shape::Mixed, true);
            }
            let stack_changed = widen(&mut stack, &other_stack);
            let locals_changed = widen(&mut locals, &other_locals);
            (Shape::At { stack, locals }, stack_changed || locals_changed)
        }
    }
}

/// Widens each cell to cover the other list's; whether one changed.
fn widen<C: Cell>(cells: &mut Vec<C>, others: &Vec<C>) -> bool {
    let mut changed = false;
    for (cell, other) in cells.iter_mut().zip(others.iter()) {
        if let Some(wider) = (*cell).widened(*other) {
            *cell = wider;
            changed = true;
        }
    }
    changed
}
