//! Where a run goes from an instruction.

/// What is left to do once an instruction has worked on the stack and the locals.
#[derive(Clone, Copy)]
pub enum Flow {
    Next,
    Jump(i32),
    /// Jumps if the flag is false.
    Unless(bool, i32),
    /// Counts the input that was pushed.
    Read,
    Write(i32),
}
