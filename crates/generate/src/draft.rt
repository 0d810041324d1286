//! A routine that is being written, with what is known before its next place.
use crate::rows::{displacement, plain, with_argument};
use crate::state::State;
use second::operation::{DUP, LOAD, STORE, TALLEST, taken};
use second::routine::{MOST_LOCALS, Row};
use std::alloc::{AllocError, Global};

/// Which values may be stored into a local.
#[derive(Clone, Copy, PartialEq, Eq)]
pub enum Stores {
    Any,
    /// Those of the kind that it holds, since a jump back relies on it.
    SameKind,
    /// None: it counts the turns of a loop.
    Never,
}

/// What the code between a branch and the place where its ways meet again must leave alone.
#[derive(Clone, Copy)]
pub struct Bounds {
    /// So many of the lowest values are not changed.
    pub floor: usize,
    /// The stack is never higher.
    pub ceiling: usize,
    stores: [Stores; MOST_LOCALS],
}

impl Bounds {
    const NONE: Bounds = Bounds {
        floor: 0,
        ceiling: TALLEST,
        stores: [Stores::Any; MOST_LOCALS],
    };

    pub fn stores(&self, local: usize) -> Stores {
        self.stores.get(local).copied().unwrap_or(Stores::Never)
    }

    pub fn set_stores(&mut self, local: usize, stores: Stores) {
        if let Some(cell) = self.stores.get_mut(local) {
            *cell = stores;
        }
    }

    /// The bounds for code that starts at a height and comes back to it.
    pub fn around(mut self, height: usize) -> Bounds {
        self.floor = self.floor.max(height.saturating_sub(1));
        self.ceiling = self.ceiling.min(height.saturating_add(2));
        self
    }

    fn allow_store(&self, row: Row, state: &State) -> bool {
        let local = usize::try_from(row.argument).unwrap_or(usize::MAX);
        match self.stores(local) {
            Stores::Any => true,
            Stores::SameKind => state.below_top(0) == Some(state.local(local)),
            Stores::Never => false,
        }
    }
}

/// How many of the values on the stack a row changes or drops: those that it takes, but for the one that DUP leaves as it is.
fn changes(row: Row) -> usize {
    match row.operation {
        DUP => 0,
        _ => taken(row),
    }
}

/// What held outside of what is open.
#[derive(Clone, Copy)]
pub struct Outer {
    pub bounds: Bounds,
    reserved: usize,
}

/// The rows so far. `limit` is how many there will be at most, and `reserved` how many of them are kept to close what is open.
#[derive(Drop)]
pub struct Draft {
    pub rows: Vec<Row>,
    pub locals: u8,
    pub state: State,
    pub bounds: Bounds,
    limit: usize,
    reserved: usize,
}

impl Draft {
    pub fn new(heap: Global, locals: u8, limit: usize) -> Draft {
        Draft {
            rows: Vec::new(heap),
            locals,
            state: State::new(),
            bounds: Bounds::NONE,
            limit,
            reserved: 1,
        }
    }

    /// How many rows may still be added before what is reserved.
    pub fn room(&self) -> usize {
        let used = self.rows.len().saturating_add(self.reserved);
        self.limit.saturating_sub(used)
    }

    /// Keeps rows for what is being opened, and answers what to go back to where it is closed.
    pub fn enter(&mut self, rows: usize) -> Outer {
        let outer = Outer {
            bounds: self.bounds,
            reserved: self.reserved,
        };
        self.keep_rows(&outer, rows);
        outer
    }

    /// Keeps so many rows beside those that were kept outside.
    pub fn keep_rows(&mut self, outer: &Outer, rows: usize) {
        self.reserved = outer.reserved.saturating_add(rows);
    }

    pub fn leave(&mut self, outer: &Outer) {
        self.bounds = outer.bounds;
        self.reserved = outer.reserved;
    }

    /// The place of the next row.
    pub fn place(&self) -> usize {
        self.rows.len()
    }

    /// Adds a row where there is room, it is applicable and it keeps the bounds; answers whether it did.
    pub fn add(&mut self, row: Row) -> Result<bool, AllocError> {
        match self.allowed(row) {
            Some(after) if self.room() > 0 => {
                self.rows.push(row)?;
                self.state = after;
                Ok(true)
            }
            _ => Ok(false),
        }
    }

    fn allowed(&self, row: Row) -> Option<State> {
        let changed = self.bounds.floor.saturating_add(changes(row));
        if self.state.height < changed {
            return None;
        }
        if !self.allows_local(row) {
            return None;
        }
        let after = self.state.after(row)?;
        if after.height > self.bounds.ceiling {
            return None;
        }
        Some(after)
    }

    fn allows_local(&self, row: Row) -> bool {
        let exists = row.argument < i32::from(self.locals);
        match row.operation {
            LOAD => exists,
            STORE => exists && self.bounds.allow_store(row, &self.state),
            _ => true,
        }
    }

    /// Adds a row out of what was kept, whatever the bounds are; does nothing where it is not applicable.
    pub fn add_kept(&mut self, row: Row) -> Result<(), AllocError> {
        if let Some(after) = self.state.after(row) {
            self.rows.push(row)?;
            self.state = after;
        }
        Ok(())
    }

    /// Adds a jump whose target is not known yet, and answers its place.
    pub fn branch(&mut self, operation: u8) -> Result<usize, AllocError> {
        let place = self.place();
        self.add_kept(plain(operation))?;
        Ok(place)
    }

    /// Lets the jump at a place lead to the next row.
    pub fn lead_here(&mut self, from: usize) {
        let here = self.place();
        if let Some(row) = self.rows.get_mut(from) {
            row.argument = displacement(from, here);
        }
    }

    /// Adds a jump back.
    pub fn jump_back(&mut self, operation: u8, to: usize) -> Result<(), AllocError> {
        self.add_kept(with_argument(operation, displacement(self.place(), to)))
    }
}
