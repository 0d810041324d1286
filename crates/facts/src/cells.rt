//! The cells of a frame.
ghost use Rattle.std.specs.Prelude.{◌≡◌, ◌<◌, ◌≤◌, [], ◌∷◌, ◌↔◌, ◌≢◌, false, IsTrue, ⊤, length, drop, slice_index_or, slice_set};
ghost use Rattle.facts.specs.Cells.{stack_cells};
ghost use Rattle.facts.specs.Frames.{entry, joined_held, joined_cells};

use crate::cell::Cell;
use std::alloc::AllocError;
use std::fmt;
use std::marker::Model;

/// A cell for each value of the stack, at most 8, and a cell for each of the 16 locals.
#[derive(Copy, Debug)]
pub struct Cells<C: Cell> {
    height: usize,
    // The bottom first. Those past the height are unused, and hold the zero cell, so that equal facts are equal in every field.
    stack: [C; 8],
    locals: [C; 16],
}

impl<C: Cell> Model for Cells<C> {
    ghost use Rattle.facts.specs.Held.{Held};

    ghost Value = { Held C };

    ghost use Rattle.facts.specs.Cells.{held, Within, given_back, given_back_ok};

    ghost view = { held C.zero };

    ghost invariant = { Within C.zero };

    ghost inverse = { given_back C.zero };

    ghost inverse_ok = { given_back_ok C.zero };
}

// By hand: a derived clone of the arrays would clone each cell.
impl<C: Cell> Clone for Cells<C> {
    ghost is_clone = { ◌≡◌ };

    ghost is_infallible = { λ _. ⊤ };

    fn clone(&self) -> Result<Cells<C>, AllocError> {
        Ok(*self)
    }
}

impl<C: Cell> Cells<C> {
    /// No value, and nothing known of the locals.
    pub(crate) fn entry() -> Cells<C>
        ensures { result ≡ entry C.top }
    {
        Cells {
            height: 0,
            stack: [C::zero(); 8],
            locals: [C::top(); 16],
        }
    }

    /// How many values the stack has.
    pub fn height(&self) -> usize
        ensures height { result ≡ length self.now.stack }
        ensures low { result ≤ 8 }
    {
        self.height
    }

    /// The 8 stack cells, the bottom first; those past the height are unused, and hold the zero cell.
    pub fn stack(&self) -> &[C; 8]
        ensures { result.now ≡ stack_cells C.zero self.now }
    {
        &self.stack
    }

    /// The 16 local cells.
    pub fn locals(&self) -> &[C; 16]
        ensures { result.now ≡ self.now.locals }
    {
        &self.locals
    }

    /// The cell `depth` below the top; the greatest cell where there is no such value.
    pub(crate) fn cell(&self, depth: usize) -> C
        ensures { result ≡ slice_index_or self.now.stack depth C.top }
    {
        if depth < self.height {
            self.stack[self.height - 1 - depth]
        } else {
            C::top()
        }
    }

    /// The cell of a local; the greatest cell past the sixteenth.
    pub(crate) fn local(&self, local: u8) -> C
        ensures { result ≡ slice_index_or self.now.locals local C.top }
    {
        match self.locals.get(usize::from(local)) {
            Some(cell) => *cell,
            None => C::top(),
        }
    }

    /// Drops the top `count` values.
    pub(crate) fn lower(&mut self, count: usize)
        requires { count ≤ length self.old.stack }
        ensures { self.new ≡ record { stack = drop count self.old.stack; locals = self.old.locals } }
    {
        for _ in 0..count {
            self.height -= 1;
            self.stack[self.height] = C::zero();
        }
    }

    /// Puts a value on top.
    pub(crate) fn raise(&mut self, cell: C)
        requires { length self.old.stack < 8 }
        ensures { self.new ≡ record { stack = cell ∷ self.old.stack; locals = self.old.locals } }
    {
        self.stack[self.height] = cell;
        self.height += 1;
    }

    /// Writes a local's cell, if it is one of the 16.
    pub(crate) fn set_local(&mut self, local: u8, cell: C)
        ensures { self.new ≡ record { stack = self.old.stack; locals = slice_set self.old.locals local cell } }
    {
        let local = usize::from(local);
        if local < 16 {
            self.locals[local] = cell;
        }
    }

    /// Joins the other's cells into these, and answers whether that changed one.
    pub(crate) fn join(&mut self, other: &Cells<C>) -> bool
        requires { length self.old.stack ≡ length other.now.stack }
        ensures joined { self.new ≡ joined_held C.joined self.old other.now }
        ensures changed { IsTrue result → self.new ≢ self.old }
        ensures same { result ≡ false → self.new ≡ self.old }
    {
        // The unused cells are the zero cell in both.
        let stack = join_cells(&mut self.stack, &other.stack, self.height);
        let locals = join_cells(&mut self.locals, &other.locals, 16);
        stack || locals
    }

    pub fn same(&self, other: &Cells<C>) -> bool
        ensures { IsTrue result ↔ (self.now ≡ other.now) }
    {
        self.height == other.height
            && same_cells(&self.stack, &other.stack)
            && same_cells(&self.locals, &other.locals)
    }
}

/// The stack from the bottom up in brackets, and then the locals that say something, in rising order.
impl<C: Cell + fmt::Display> fmt::Display for Cells<C> {
    fn fmt<W: fmt::Write>(&self, f: &mut fmt::Formatter<W>) -> fmt::Result {
        f.write_str("(")?;
        for (k, cell) in self.stack.iter().take(self.height).enumerate() {
            if k > 0 {
                f.write_str(" ")?;
            }
            write!(f, "{cell}")?;
        }
        f.write_str(")")?;
        for (local, cell) in self.locals.iter().enumerate() {
            if !cell.same(C::top()) {
                write!(f, " {local}={cell}")?;
            }
        }
        Ok(())
    }
}

/// Joins each cell with the other at its place, and answers whether that changed one. Past the first `count` they are the same.
fn join_cells<C: Cell>(cells: &mut [C], others: &[C], count: usize) -> bool
    requires lengths { length cells.old ≡ length others.now }
    requires count { count ≤ length cells.old }
    requires rest { drop count cells.old ≡ drop count others.now }
    ensures joined { cells.new ≡ joined_cells C.joined cells.old others.now }
    ensures changed { IsTrue result → cells.new ≢ cells.old }
    ensures same { result ≡ false → cells.new ≡ cells.old }
{
    let mut changed = false;
    for k in 0..count {
        changed = join_cell(&mut cells[k], others[k]) || changed;
    }
    changed
}

/// Joins a cell into another, and answers whether that changed it.
#[inline(always)]
fn join_cell<C: Cell>(cell: &mut C, other: C) -> bool
    ensures joined { cell.new ≡ C.joined cell.old other }
    ensures changed { IsTrue result → cell.new ≢ cell.old }
    ensures same { result ≡ false → cell.new ≡ cell.old }
{
    // Asked first, since most cells say nothing: nothing is above the greatest.
    if cell.same(C::top()) {
        return false;
    }
    let joined = cell.join(other);
    if cell.same(joined) {
        return false;
    }
    *cell = joined;
    true
}

/// Whether two lists of cells of one length are the same.
fn same_cells<C: Cell>(a: &[C], b: &[C]) -> bool
    requires { length a.now ≡ length b.now }
    ensures { IsTrue result ↔ (a.now ≡ b.now) }
{
    for k in 0..a.len() {
        if !a[k].same(b[k]) {
            return false;
        }
    }
    true
}
