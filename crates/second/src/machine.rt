//! Runs of a routine.
use crate::arithmetic::computed;
use crate::operation::{
    ADD, DIV, DJMP, DUP, EQ, HALT, IN, JF, JMP, LIT, LITF, LOAD, LT, MUL, NOP, NOT, OUT, POP,
    STORE, SUB, SWAP, following, jumped, local, misfit_of, taken,
};
use crate::routine::{MOST_LOCALS, Routine, Row};
use crate::value::Value;
use std::alloc::{AllocError, Global};

/// How a run ends, with the ending's number.
#[derive(Clone, Copy)]
enum Ending {
    Running = 0,
    Halted = 1,
    Trapped = 2,
    Dry = 3,
    Full = 4,
    Stuck = 5,
}

/// The whole answer of a run.
#[derive(Clone, PartialEq, Eq, Debug, Drop)]
pub struct Told {
    pub ending: u8,
    pub place: usize,
    pub steps: u32,
    pub used: usize,
    pub outputs: Vec<i32>,
}

/// Where a run goes on after an instruction, or how it ends at it.
enum Turn {
    Follows,
    Jumps,
    Ends(Ending),
}

/// A run under way.
#[derive(Drop)]
struct Course<'a> {
    inputs: &'a [i32],
    room: usize,
    stack: Vec<Value>,
    /// A local that is not set has none.
    locals: Vec<Option<Value>>,
    used: usize,
    outputs: Vec<i32>,
}

/// Runs a routine with an output buffer of `room` numbers.
pub fn run(
    heap: Global,
    routine: &Routine,
    inputs: &[i32],
    room: usize,
    budget: u32,
) -> Result<Told, AllocError> {
    let mut course = Course {
        inputs,
        room,
        stack: Vec::new(heap),
        locals: vec![in heap; None; MOST_LOCALS]?,
        used: 0,
        outputs: Vec::new(heap),
    };
    let mut place = 0;
    for steps in 0..budget {
        match course.step(routine, place)? {
            Ok(next) => place = next,
            Err(ending) => return Ok(course.told(ending, place, steps)),
        }
    }
    Ok(course.told(Ending::Running, place, budget))
}

impl Course<'_> {
    /// The answer of a run that ends at a place.
    fn told(self, ending: Ending, place: usize, steps: u32) -> Told {
        Told {
            ending: ending as u8,
            place,
            steps,
            used: self.used,
            outputs: self.outputs,
        }
    }

    /// Does the instruction at a place: the next place, or how the run ends there.
    fn step(
        &mut self,
        routine: &Routine,
        place: usize,
    ) -> Result<Result<usize, Ending>, AllocError> {
        let Some(row) = routine.rows.get(place).copied() else {
            return Ok(Err(Ending::Stuck));
        };
        if misfit_of(row, self.stack.len()).is_some() {
            return Ok(Err(Ending::Stuck));
        }
        let next = match self.act(row)? {
            Turn::Follows => following(row, place),
            Turn::Jumps => jumped(row, place),
            Turn::Ends(ending) => return Ok(Err(ending)),
        };
        Ok(next.ok_or(Ending::Stuck))
    }

    /// Does an instruction that the stack's height suits.
    fn act(&mut self, row: Row) -> Result<Turn, AllocError> {
        match row.operation {
            HALT => Ok(Turn::Ends(Ending::Halted)),
            NOP => Ok(Turn::Follows),
            LIT => self.replace(row, Value::Number(row.argument)),
            LITF => self.replace(row, Value::Truth(row.argument != 0)),
            LOAD => match self.loaded(row) {
                Some(value) => self.replace(row, value),
                None => Ok(Turn::Ends(Ending::Stuck)),
            },
            POP | DUP | SWAP | STORE => self.shuffle(row),
            ADD | SUB | MUL | DIV | EQ | LT => self.compute(row),
            NOT => match self.stack.last().copied() {
                Some(Value::Truth(flag)) => self.replace(row, Value::Truth(!flag)),
                _ => Ok(Turn::Ends(Ending::Stuck)),
            },
            IN => self.take_input(row),
            OUT => self.put_output(),
            JMP | JF | DJMP => Ok(self.jump(row)),
            _ => Ok(Turn::Ends(Ending::Stuck)),
        }
    }

    /// Puts a value in place of those that an instruction takes.
    fn replace(&mut self, row: Row, value: Value) -> Result<Turn, AllocError> {
        let kept = self.stack.len().saturating_sub(taken(row));
        self.stack.truncate(kept);
        self.stack.push(value)?;
        Ok(Turn::Follows)
    }

    /// The value of the local that an instruction names.
    fn loaded(&self, row: Row) -> Option<Value> {
        self.locals.get(local(row)?).copied().flatten()
    }

    /// Moves values of any kind.
    fn shuffle(&mut self, row: Row) -> Result<Turn, AllocError> {
        let Some(top) = self.stack.pop() else {
            return Ok(Turn::Ends(Ending::Stuck));
        };
        match row.operation {
            DUP => {
                self.stack.push(top)?;
                self.stack.push(top)?;
            }
            SWAP => {
                let Some(second) = self.stack.pop() else {
                    return Ok(Turn::Ends(Ending::Stuck));
                };
                self.stack.push(top)?;
                self.stack.push(second)?;
            }
            STORE => match local(row).and_then(|local| self.locals.get_mut(local)) {
                Some(slot) => *slot = Some(top),
                None => return Ok(Turn::Ends(Ending::Stuck)),
            },
            _ => {}
        }
        Ok(Turn::Follows)
    }

    /// Takes two numbers, the second from the top, and gives what they make.
    fn compute(&mut self, row: Row) -> Result<Turn, AllocError> {
        let [.., Value::Number(a), Value::Number(b)] = self.stack.as_slice() else {
            return Ok(Turn::Ends(Ending::Stuck));
        };
        match computed(row.operation, *a, *b) {
            Some(value) => self.replace(row, value),
            None => Ok(Turn::Ends(Ending::Trapped)),
        }
    }

    fn take_input(&mut self, row: Row) -> Result<Turn, AllocError> {
        match self.inputs.get(self.used).copied() {
            Some(number) => {
                self.used = self.used.saturating_add(1);
                self.replace(row, Value::Number(number))
            }
            None => Ok(Turn::Ends(Ending::Dry)),
        }
    }

    fn put_output(&mut self) -> Result<Turn, AllocError> {
        match self.stack.pop() {
            Some(Value::Number(_)) if self.outputs.len() >= self.room => Ok(Turn::Ends(
                Ending::Full,
            )),
            Some(Value::Number(number)) => {
                self.outputs.push(number)?;
                Ok(Turn::Follows)
            }
            _ => Ok(Turn::Ends(Ending::Stuck)),
        }
    }

    fn jump(&mut self, row: Row) -> Turn {
        if row.operation == JMP {
            return Turn::Jumps;
        }
        match (row.operation, self.stack.pop()) {
            (DJMP, Some(_)) | (JF, Some(Value::Truth(false))) => Turn::Jumps,
            (JF, Some(Value::Truth(true))) => Turn::Follows,
            _ => Turn::Ends(Ending::Stuck),
        }
    }
}
