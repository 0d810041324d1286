//! Arithmetic as a machine of 32 signed bits has it, by way of 64.
use crate::operation::{ADD, DIV, EQ, LT, MUL, SUB};
use crate::value::Value;

/// How many numbers there are of 32 bits.
const MODULUS: i64 = 1 << 32;

/// The number of 32 signed bits that differs from this one by a multiple of 2 to the 32.
fn wrapped(number: i64) -> i32 {
    let low = number.rem_euclid(MODULUS);
    if low < MODULUS / 2 {
        low as i32
    } else {
        (low - MODULUS) as i32
    }
}

fn sum(a: i32, b: i32) -> i32 {
    wrapped(i64::from(a) + i64::from(b))
}

fn difference(a: i32, b: i32) -> i32 {
    wrapped(i64::from(a) - i64::from(b))
}

fn product(a: i32, b: i32) -> i32 {
    wrapped(i64::from(a) * i64::from(b))
}

/// How often b goes into a, without the fraction; none where b is 0.
fn quotient(a: i32, b: i32) -> Option<i32> {
    let size = u64::from(a.unsigned_abs()).checked_div(u64::from(b.unsigned_abs()))?;
    let size = i64::try_from(size).ok()?;
    if (a < 0) == (b < 0) {
        Some(wrapped(size))
    } else {
        Some(wrapped(size.wrapping_neg()))
    }
}

/// What an operation on two numbers gives, b from the top of the stack; none where it divides by 0, and of every other operation.
pub fn computed(operation: u8, a: i32, b: i32) -> Option<Value> {
    match operation {
        ADD => Some(Value::Number(sum(a, b))),
        SUB => Some(Value::Number(difference(a, b))),
        MUL => Some(Value::Number(product(a, b))),
        DIV => quotient(a, b).map(Value::Number),
        EQ => Some(Value::Truth(a == b)),
        LT => Some(Value::Truth(a < b)),
        _ => None,
    }
}
