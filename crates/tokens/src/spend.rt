//! The two ends of an attempt.

/// By a keep or by an abandon.
#[derive(Clone, Copy, PartialEq, Eq, Debug)]
pub enum Spend {
    Keep,
    Abandon,
}
