//! The kinds of what is on the stack and in the locals before a place, as a straight line gives them.
use second::facts::Kind;
use second::operation::{
    ADD, DIV, DJMP, DUP, EQ, HALT, IN, JF, JMP, LIT, LITF, LOAD, LT, MUL, NOP, NOT, OUT, POP,
    STORE, SUB, SWAP, TALLEST,
};
use second::routine::{MOST_LOCALS, Row};

/// The kinds, and whether any run may come here.
#[derive(Clone, Copy)]
pub struct State {
    pub reached: bool,
    pub height: usize,
    stack: [Kind; TALLEST],
    locals: [Kind; MOST_LOCALS],
}

impl State {
    /// The state before place 0.
    pub const fn new() -> State {
        State {
            reached: true,
            height: 0,
            stack: [Kind::Unusable; TALLEST],
            locals: [Kind::Unusable; MOST_LOCALS],
        }
    }

    /// The kind of the value that has so many above it.
    pub fn below_top(&self, above: usize) -> Option<Kind> {
        let index = self.height.checked_sub(above)?.checked_sub(1)?;
        self.cell(index)
    }

    /// The kind of the value that has so many below it.
    pub fn cell(&self, index: usize) -> Option<Kind> {
        if index >= self.height {
            return None;
        }
        self.stack.get(index).copied()
    }

    pub fn local(&self, local: usize) -> Kind {
        self.locals.get(local).copied().unwrap_or(Kind::Unusable)
    }

    pub fn set_local(&mut self, local: usize, kind: Kind) {
        if let Some(cell) = self.locals.get_mut(local) {
            *cell = kind;
        }
    }

    pub fn set_cell(&mut self, index: usize, kind: Kind) {
        if let Some(cell) = self.stack.get_mut(index) {
            *cell = kind;
        }
    }

    fn dropped(self, count: usize) -> Option<State> {
        Some(State {
            height: self.height.checked_sub(count)?,
            ..self
        })
    }

    fn taken(self, kind: Kind) -> Option<State> {
        if self.below_top(0)? != kind {
            return None;
        }
        self.dropped(1)
    }

    fn pushed(mut self, kind: Kind) -> Option<State> {
        let height = self.height;
        *self.stack.get_mut(height)? = kind;
        self.height = height.saturating_add(1);
        Some(self)
    }

    fn loaded(self, local: usize) -> Option<State> {
        match self.local(local) {
            Kind::Unusable => None,
            kind => self.pushed(kind),
        }
    }

    fn stored(self, local: usize) -> Option<State> {
        let kind = self.below_top(0)?;
        let mut after = self.dropped(1)?;
        after.set_local(local, kind);
        Some(after)
    }

    fn swapped(self) -> Option<State> {
        let top = self.below_top(0)?;
        let next = self.below_top(1)?;
        self.dropped(2)?.pushed(top)?.pushed(next)
    }

    /// The state after a row where it goes on to the next place; none where the row is not applicable.
    pub fn after(self, row: Row) -> Option<State> {
        let local = usize::try_from(row.argument).unwrap_or(usize::MAX);
        match row.operation {
            NOP | HALT | JMP => Some(self),
            LIT => self.dropped(usize::from(row.drops))?.pushed(Kind::Number),
            LITF => self.dropped(usize::from(row.drops))?.pushed(Kind::Truth),
            POP | DJMP => self.dropped(1),
            DUP => self.pushed(self.below_top(0)?),
            SWAP => self.swapped(),
            LOAD => self.loaded(local),
            STORE => self.stored(local),
            ADD | SUB | MUL | DIV => self.taken_two()?.pushed(Kind::Number),
            EQ | LT => self.taken_two()?.pushed(Kind::Truth),
            NOT => self.taken(Kind::Truth)?.pushed(Kind::Truth),
            JF => self.taken(Kind::Truth),
            IN => self.pushed(Kind::Number),
            OUT => self.taken(Kind::Number),
            _ => None,
        }
    }

    fn taken_two(self) -> Option<State> {
        self.taken(Kind::Number)?.taken(Kind::Number)
    }

    /// What is known where both of two states, of one height, may come.
    pub fn joined(self, other: &State) -> State {
        if !self.reached {
            return *other;
        }
        if !other.reached {
            return self;
        }
        let mut joined = self;
        for (cell, with) in joined.stack.iter_mut().zip(&other.stack) {
            *cell = join(*cell, *with);
        }
        for (cell, with) in joined.locals.iter_mut().zip(&other.locals) {
            *cell = join(*cell, *with);
        }
        joined
    }
}

fn join(one: Kind, other: Kind) -> Kind {
    if one == other { one } else { Kind::Unusable }
}
