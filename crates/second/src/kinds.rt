//! Which kinds of values an instruction takes and gives.
use crate::facts::{Kind, Shape};
use crate::operation::{
    ADD, DIV, EQ, IN, JF, LIT, LITF, LOAD, LT, MUL, Misfit, NOT, OUT, SUB, local, misfit_of,
};
use crate::routine::Row;
use crate::sweeps::{Cell, Passed, Way};

impl Cell for Kind {
    const UNSET: Kind = Kind::Unusable;

    fn widened(self, other: Kind) -> Option<Kind> {
        if self == other || self == Kind::Unusable {
            None
        } else {
            Some(Kind::Unusable)
        }
    }

    fn passed(row: Row, _way: Way, stack: &[Kind], locals: &[Kind]) -> Passed<Kind> {
        if unsuited(row, stack, locals).is_some() {
            return Passed::Clash;
        }
        Passed::Changed(match row.operation {
            LIT | ADD | SUB | MUL | DIV | IN => Some(Kind::Number),
            LITF | EQ | LT | NOT => Some(Kind::Truth),
            _ => None,
        })
    }
}

/// Why an instruction is not applicable where values have these kinds.
pub fn objection(row: Row, shape: &Shape<Kind>) -> Option<Misfit> {
    match shape {
        Shape::Nowhere => None,
        Shape::Mixed => Some(Misfit::Clash),
        Shape::At { stack, locals } => unsuited(row, stack.as_slice(), locals.as_slice()),
    }
}

fn unsuited(row: Row, stack: &[Kind], locals: &[Kind]) -> Option<Misfit> {
    if let Some(misfit) = misfit_of(row, stack.len()) {
        return Some(misfit);
    }
    let suits = match row.operation {
        ADD | SUB | MUL | DIV | EQ | LT => matches!(stack, [.., Kind::Number, Kind::Number]),
        NOT | JF => matches!(stack, [.., Kind::Truth]),
        OUT => matches!(stack, [.., Kind::Number]),
        LOAD => match local(row).and_then(|local| locals.get(local).copied()) {
            Some(kind) => kind != Kind::Unusable,
            None => false,
        },
        _ => true,
    };
    if suits { None } else { Some(Misfit::WrongKind) }
}
