//! The numbers of the operations, how many values each takes from the stack and gives to it, and where it may go on.
use crate::routine::Row;

pub const NOP: u8 = 0;

pub const HALT: u8 = 1;

pub const LIT: u8 = 2;

pub const LITF: u8 = 3;

pub const POP: u8 = 4;

pub const DUP: u8 = 5;

pub const SWAP: u8 = 6;

pub const LOAD: u8 = 7;

pub const STORE: u8 = 8;

pub const ADD: u8 = 9;

pub const SUB: u8 = 10;

pub const MUL: u8 = 11;

pub const DIV: u8 = 12;

pub const EQ: u8 = 13;

pub const LT: u8 = 14;

pub const NOT: u8 = 15;

pub const JMP: u8 = 16;

pub const JF: u8 = 17;

pub const DJMP: u8 = 18;

pub const IN: u8 = 19;

pub const OUT: u8 = 20;

/// How many values a stack holds at most.
pub const TALLEST: usize = 8;

/// Why an instruction is not applicable, with the reason's number.
#[derive(Clone, Copy, PartialEq, Eq, Debug)]
pub enum Misfit {
    TooFew = 1,
    TooMany = 2,
    /// A value of the wrong kind, or a local that cannot be loaded.
    WrongKind = 3,
    /// Ways to the instruction that do not fit together.
    Clash = 4,
}

/// How many values an instruction takes.
pub fn taken(row: Row) -> usize {
    match row.operation {
        LIT | LITF => usize::from(row.drops),
        POP | DUP | STORE | NOT | JF | DJMP | OUT => 1,
        SWAP | ADD | SUB | MUL | DIV | EQ | LT => 2,
        _ => 0,
    }
}

/// How many values an instruction leaves in place of those that it takes.
fn given(row: Row) -> usize {
    match row.operation {
        LIT | LITF | LOAD | ADD | SUB | MUL | DIV | EQ | LT | NOT | IN => 1,
        DUP | SWAP => 2,
        _ => 0,
    }
}

/// What is wrong with the height of a stack: it lacks a value that the instruction takes, or has no room for one that it gives.
pub fn misfit_of(row: Row, height: usize) -> Option<Misfit> {
    match height.checked_sub(taken(row)) {
        None => Some(Misfit::TooFew),
        Some(kept) if kept.saturating_add(given(row)) > TALLEST => Some(Misfit::TooMany),
        Some(_) => None,
    }
}

/// The place after this one, where an instruction may go on there.
pub fn following(row: Row, place: usize) -> Option<usize> {
    match row.operation {
        HALT | JMP | DJMP => None,
        _ => place.checked_add(1),
    }
}

/// The place that an instruction may jump to.
pub fn jumped(row: Row, place: usize) -> Option<usize> {
    match row.operation {
        JMP | JF | DJMP => place.checked_add_signed(row.argument as isize),
        _ => None,
    }
}

/// The number of the local that an instruction reads or writes, as an index.
pub fn local(row: Row) -> Option<usize> {
    match row.operation {
        LOAD | STORE => usize::try_from(row.argument).ok(),
        _ => None,
    }
}
