//! Which values an instruction gives, by what is known of those that it takes.
use crate::arithmetic::computed;
use crate::facts::Guess;
use crate::operation::{ADD, DIV, EQ, IN, JF, LIT, LITF, LT, MUL, NOT, SUB, misfit_of};
use crate::routine::Row;
use crate::sweeps::{Cell, Passed, Way};
use crate::value::Value;

impl Cell for Guess {
    const UNSET: Guess = Guess::Anything;

    fn widened(self, other: Guess) -> Option<Guess> {
        if self == other || self == Guess::Anything {
            None
        } else {
            Some(Guess::Anything)
        }
    }

    // A value of the wrong kind is no reason to object: the types do that.
    fn passed(row: Row, way: Way, stack: &[Guess], _locals: &[Guess]) -> Passed<Guess> {
        if misfit_of(row, stack.len()).is_some() {
            return Passed::Clash;
        }
        match (row.operation, way, stack) {
            (DIV, _, [.., Guess::Exactly(Value::Number(0))])
            | (JF, Way::Jump, [.., Guess::Exactly(Value::Truth(true))])
            | (JF, Way::Follow, [.., Guess::Exactly(Value::Truth(false))]) => Passed::Nothing,
            _ => Passed::Changed(given(row, stack)),
        }
    }
}

/// What is known of the value that an instruction gives, other than one that it only moves.
fn given(row: Row, stack: &[Guess]) -> Option<Guess> {
    match row.operation {
        LIT => Some(Guess::Exactly(Value::Number(row.argument))),
        LITF => Some(Guess::Exactly(Value::Truth(row.argument != 0))),
        IN => Some(Guess::Anything),
        NOT => Some(match stack {
            [.., Guess::Exactly(Value::Truth(flag))] => Guess::Exactly(Value::Truth(!*flag)),
            _ => Guess::Anything,
        }),
        ADD | SUB | MUL | DIV | EQ | LT => Some(match stack {
            [
                ..,
                Guess::Exactly(Value::Number(a)),
                Guess::Exactly(Value::Number(b)),
            ] => { computed(row.operation, *a, *b).map_or(Guess::Anything, Guess::Exactly) }
            _ => Guess::Anything,
        }),
        _ => None,
    }
}
