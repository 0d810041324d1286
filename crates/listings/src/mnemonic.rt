//! The names of the operations, and which operands each is written with.
ghost use Rattle.std.specs.Prelude.{◌<◌, length, MatchOption};
ghost use Rattle.listings.specs.Names.{NamedAt, NoneBefore};

use std::fmt;

/// What is written after an operation's name.
#[derive(Clone, Copy, Debug)]
pub enum Operands {
    None,
    /// A drop count and an argument.
    DropsAndArgument,
    /// The number of a local.
    Local,
    /// The displacement of a jump.
    Displacement,
}

impl fmt::Display for Operands {
    fn fmt<W: fmt::Write>(&self, f: &mut fmt::Formatter<W>) -> fmt::Result {
        f.write_str(match self {
            Operands::None => "no operands",
            Operands::DropsAndArgument => "a drop count and an argument",
            Operands::Local => "one local",
            Operands::Displacement => "one displacement",
        })
    }
}

/// The name of an operation, and what is written after it.
#[derive(Clone, Copy, Debug)]
pub struct Mnemonic {
    pub name: &'static str,
    pub operands: Operands,
}

/// The operations in the order of their numbers in the unit file.
pub static MNEMONICS: [Mnemonic; 21] = [
    Mnemonic {
        name: "NOP",
        operands: Operands::None,
    },
    Mnemonic {
        name: "HALT",
        operands: Operands::None,
    },
    Mnemonic {
        name: "LIT",
        operands: Operands::DropsAndArgument,
    },
    Mnemonic {
        name: "LITF",
        operands: Operands::DropsAndArgument,
    },
    Mnemonic {
        name: "POP",
        operands: Operands::None,
    },
    Mnemonic {
        name: "DUP",
        operands: Operands::None,
    },
    Mnemonic {
        name: "SWAP",
        operands: Operands::None,
    },
    Mnemonic {
        name: "LOAD",
        operands: Operands::Local,
    },
    Mnemonic {
        name: "STORE",
        operands: Operands::Local,
    },
    Mnemonic {
        name: "ADD",
        operands: Operands::None,
    },
    Mnemonic {
        name: "SUB",
        operands: Operands::None,
    },
    Mnemonic {
        name: "MUL",
        operands: Operands::None,
    },
    Mnemonic {
        name: "DIV",
        operands: Operands::None,
    },
    Mnemonic {
        name: "EQ",
        operands: Operands::None,
    },
    Mnemonic {
        name: "LT",
        operands: Operands::None,
    },
    Mnemonic {
        name: "NOT",
        operands: Operands::None,
    },
    Mnemonic {
        name: "JMP",
        operands: Operands::Displacement,
    },
    Mnemonic {
        name: "JF",
        operands: Operands::Displacement,
    },
    Mnemonic {
        name: "DJMP",
        operands: Operands::Displacement,
    },
    Mnemonic {
        name: "IN",
        operands: Operands::None,
    },
    Mnemonic {
        name: "OUT",
        operands: Operands::None,
    },
];

/// Where `table` has the operation of this name, without regard to case; in `MNEMONICS` that is the operation's number.
pub fn find(table: &[Mnemonic], name: &str) -> Option<usize>
    ensures { MatchOption result (NoneBefore table.now (length table.now) name.now) (λ op. (op < length table.now) × NamedAt table.now op name.now) }
{
    table
        .iter()
        .position(|mnemonic| mnemonic.name.eq_ignore_ascii_case(name))
}
