//! Numbers that are written as words.
use std::num::ParseIntError;
use std::str::FromStr;

/// A number whose range an error can name.
pub trait InRange: FromStr<Err = ParseIntError> {
    /// The numbers of the range, in words.
    const RANGE: &'static str;
}

impl InRange for u8 {
    const RANGE: &'static str = "a number from 0 to 255";
}

impl InRange for i32 {
    const RANGE: &'static str = "a signed 32-bit number";
}

impl InRange for u32 {
    const RANGE: &'static str = "an unsigned 32-bit number";
}

impl InRange for usize {
    const RANGE: &'static str = "an unsigned number";
}
