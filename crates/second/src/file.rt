//! The unit file, written and read.
use crate::fault::{Fault, Layer};
use crate::operation::{DJMP, HALT, JF, JMP, LIT, LITF, LOAD, OUT, STORE, jumped, local};
use crate::routine::{MOST_LOCALS, MOST_ROWS, Routine, Row};
use std::alloc::{AllocError, Global};

/// The first byte of a file.
const VERSION: u8 = 1;

/// How many bytes a row has.
pub const ROW_LENGTH: usize = 6;

/// The check is a sum modulo this.
const CHECK_MODULUS: u32 = 65_521;

/// The file of a routine, with the right check. Its count is the low 16 bits of the number of rows.
pub fn written(heap: Global, routine: &Routine) -> Result<Vec<u8>, AllocError> {
    let mut bytes = Vec::new(heap);
    bytes.push(VERSION)?;
    bytes.push(routine.locals)?;
    bytes.extend_from_slice(&low_16(routine.rows.len()))?;
    for row in &routine.rows {
        bytes.push(row.operation)?;
        bytes.push(row.drops)?;
        bytes.extend_from_slice(&row.argument.to_be_bytes())?;
    }
    let check = check_of(bytes.as_slice());
    bytes.extend_from_slice(&check)?;
    Ok(bytes)
}

/// The low 16 bits of a number, high byte first.
fn low_16(number: usize) -> [u8; 2] {
    let [.., high, low] = number.to_be_bytes();
    [high, low]
}

/// The check of the bytes before it.
pub fn check_of(bytes: &[u8]) -> [u8; 2] {
    let mut sum = 0u32;
    for byte in bytes {
        sum = (sum % CHECK_MODULUS).wrapping_add(u32::from(*byte));
    }
    let [.., high, low] = (sum % CHECK_MODULUS).to_be_bytes();
    [high, low]
}

/// The routine whose file these bytes are, or the refusal, 3 to 7.
pub fn read(heap: Global, bytes: &[u8]) -> Result<Result<Routine, Fault>, AllocError> {
    let [version, locals, high, low, body @ .., check_high, check_low] = bytes else {
        return Ok(Err(of_file(3)));
    };
    let count = body.len() / ROW_LENGTH;
    if body.len() % ROW_LENGTH != 0 || count == 0 || count > MOST_ROWS {
        return Ok(Err(of_file(3)));
    }
    let summed = &bytes[..bytes.len() - 2];
    if check_of(summed) != [*check_high, *check_low] {
        return Ok(Err(of_file(4)));
    }
    if *version != VERSION || usize::from(*locals) > MOST_LOCALS {
        return Ok(Err(of_file(5)));
    }
    if low_16(count) != [*high, *low] {
        return Ok(Err(of_file(6)));
    }
    let routine = Routine {
        locals: *locals,
        rows: rows(heap, body)?,
    };
    Ok(match lowest_wrong(&routine) {
        None => Ok(routine),
        Some(place) => Err(Fault::at(Layer::Unit, 7, place, 0)),
    })
}

/// What is wrong with the file as a whole.
fn of_file(number: u8) -> Fault {
    Fault::at(Layer::File, number, 0, 0)
}

/// The rows that these bytes are.
fn rows(heap: Global, body: &[u8]) -> Result<Vec<Row>, AllocError> {
    let mut rows = Vec::new(heap);
    let mut rest = body;
    for _ in 0..MOST_ROWS {
        let [operation, drops, a, b, c, d, others @ ..] = rest else {
            break;
        };
        rows.push(Row {
            operation: *operation,
            drops: *drops,
            argument: i32::from_be_bytes([*a, *b, *c, *d]),
        })?;
        rest = others;
    }
    Ok(rows)
}

/// The lowest place whose instruction no unit has there.
fn lowest_wrong(routine: &Routine) -> Option<usize> {
    for (place, row) in routine.rows.iter().enumerate() {
        let is_last = place.saturating_add(1) == routine.rows.len();
        let stays = matches!(row.operation, HALT | JMP | DJMP);
        if !is_known(*row) || !is_within(routine, *row, place) || (is_last && !stays) {
            return Some(place);
        }
    }
    None
}

/// Whether the operation, the drop count and the argument go together, wherever the instruction stands.
fn is_known(row: Row) -> bool {
    let most_drops = if matches!(row.operation, LIT | LITF) {
        2
    } else {
        0
    };
    let argument_suits = match row.operation {
        LIT | LOAD | STORE | JMP | JF | DJMP => true,
        LITF => row.argument == 0 || row.argument == 1,
        _ => row.argument == 0,
    };
    row.operation <= OUT && row.drops <= most_drops && argument_suits
}

/// Whether the local or the target that an instruction names is there.
fn is_within(routine: &Routine, row: Row, place: usize) -> bool {
    match row.operation {
        LOAD | STORE => local(row).is_some_and(|local| local < usize::from(routine.locals)),
        JMP | JF | DJMP => jumped(row, place).is_some_and(|target| target < routine.rows.len()),
        _ => true,
    }
}
