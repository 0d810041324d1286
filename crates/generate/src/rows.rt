//! Rows of a routine with words in range.
use draws::random::Random;
use second::operation::{DJMP, HALT, JF, JMP, LIT, LITF, LOAD, STORE};
use second::routine::Row;

/// How many operations there are.
pub const OPERATIONS: u32 = 21;

/// The operations that end a straight line, so that the next place is not reached from theirs.
pub const LAST: [u8; 3] = [HALT, JMP, DJMP];

/// A row of an operation without drop count and argument.
pub const fn plain(operation: u8) -> Row {
    with_argument(operation, 0)
}

/// A row of an operation with a local, or with a displacement.
pub const fn with_argument(operation: u8, argument: i32) -> Row {
    Row {
        operation,
        drops: 0,
        argument,
    }
}

/// A row that drops values and pushes a number.
pub const fn number(drops: u8, number: i32) -> Row {
    Row {
        operation: LIT,
        drops,
        argument: number,
    }
}

/// A row that drops values and pushes a flag.
pub fn flag(drops: u8, flag: bool) -> Row {
    Row {
        operation: LITF,
        drops,
        argument: i32::from(flag),
    }
}

/// What a jump at `from` adds to its place to come to `to`.
pub fn displacement(from: usize, to: usize) -> i32 {
    let from = i32::try_from(from).unwrap_or(0);
    i32::try_from(to).unwrap_or(0).wrapping_sub(from)
}

/// A row of the operation at a place, its words in range for so many locals and rows.
pub fn in_range(random: &mut Random, operation: u8, place: usize, locals: u8, rows: usize) -> Row {
    match operation {
        LIT => number(drops(random), random.number()),
        LITF => flag(drops(random), random.chance(50)),
        LOAD | STORE => with_argument(operation, i32::from(local(random, locals))),
        JMP | JF | DJMP => with_argument(operation, displacement(place, random.index(rows))),
        _ => plain(operation),
    }
}

/// A row of any operation, its words in range.
pub fn any_in_range(random: &mut Random, place: usize, locals: u8, rows: usize) -> Row {
    let operation = random.below(OPERATIONS) as u8;
    in_range(random, operation, place, locals, rows)
}

/// A drop count: 0 mostly.
fn drops(random: &mut Random) -> u8 {
    random.choice(&[0, 0, 0, 0, 1, 2]).unwrap_or(0)
}

/// One of so many locals, a low one mostly, so that the same ones come again; 0 where there are none.
pub fn local(random: &mut Random, locals: u8) -> u8 {
    let among = if random.chance(80) {
        locals.min(3)
    } else {
        locals
    };
    u8::try_from(random.below(u32::from(among))).unwrap_or(0)
}
