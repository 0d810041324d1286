//! The instructions of the machine.

/// An operation with what it names. The numbers of the unit file are in `word`.
#[derive(Clone, Copy, Debug)]
pub enum Instr {
    Nop,
    Halt,
    /// Drops `drops` values (0 to 2) and pushes a number.
    Lit { drops: u8, value: i32 },
    /// Drops `drops` values (0 to 2) and pushes a flag.
    LitFlag { drops: u8, value: bool },
    Pop,
    Dup,
    Swap,
    Load(u8),
    Store(u8),
    Add,
    Sub,
    Mul,
    Div,
    Eq,
    Lt,
    Not,
    /// A jump's displacement counts from the jump's own place.
    Jmp(i32),
    /// Jumps if the flag that it pops is false.
    Jf(i32),
    /// Drops one value and jumps.
    DropJmp(i32),
    In,
    Out,
}
