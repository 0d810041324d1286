//! Why a file or a buffer is refused.
ghost use Rattle.std.specs.Prelude.{◌≡◌};
ghost use Rattle.bytecode.specs.Faults.{short_number, read_number, read_place};
ghost use Rattle.bytecode.specs.declared.fault.ReadFault.TheVariants.{File, Unit as InUnit};

use std::error::Error;
use std::fmt;

/// The file as a whole is wrong.
#[derive(Clone, Copy, PartialEq, Eq, Debug)]
pub enum FileFault {
    /// The length is not that of 1 to 128 instructions.
    Length,
    /// The check differs.
    Check,
    /// The first byte is not 1, or there are more than 16 locals.
    Head,
    /// The number of instructions is not the length's.
    Count,
}

/// An instruction is unknown or may not stand at its place; the lowest such place.
#[derive(Clone, Copy, PartialEq, Eq, Debug)]
pub struct UnitFault {
    pub place: usize,
}

/// Why a file is no unit, by its layer, with the lower fault whole.
#[derive(Clone, Copy, PartialEq, Eq, Debug)]
pub enum ReadFault {
    File(FileFault),
    Unit(UnitFault),
}

/// The caller's buffer is too short.
#[derive(Clone, Copy, PartialEq, Eq, Debug)]
pub struct TooShort;

// By hand: a derived conversion has no clause, and a reader's contract says which fault it gives.
impl From<FileFault> for ReadFault {
    ghost from_gives = { λ x y. y ≡ File x };

    fn from(fault: FileFault) -> ReadFault {
        ReadFault::File(fault)
    }
}

impl From<UnitFault> for ReadFault {
    ghost from_gives = { λ x y. y ≡ InUnit x };

    fn from(fault: UnitFault) -> ReadFault {
        ReadFault::Unit(fault)
    }
}

// Methods and no conversions to numbers: `u8::from` of a fault would not say which of its numbers.
impl ReadFault {
    /// The refusal number.
    pub fn number(&self) -> u8
        ensures { result ≡ read_number self.now }
    {
        match self {
            ReadFault::File(FileFault::Length) => 3,
            ReadFault::File(FileFault::Check) => 4,
            ReadFault::File(FileFault::Head) => 5,
            ReadFault::File(FileFault::Count) => 6,
            ReadFault::Unit(_) => 7,
        }
    }

    /// The place that is named, 0 where none is.
    // No `Option`: with each refusal a place is told.
    pub fn place(&self) -> usize
        ensures { result ≡ read_place self.now }
    {
        match self {
            ReadFault::File(_) => 0,
            ReadFault::Unit(fault) => fault.place,
        }
    }
}

/// As the program tells it: the refusal number, the layer that refuses, and the place.
impl fmt::Display for ReadFault {
    fn fmt<W: fmt::Write>(&self, f: &mut fmt::Formatter<W>) -> fmt::Result {
        let layer = match self {
            ReadFault::File(_) => "file",
            ReadFault::Unit(_) => "unit",
        };
        write!(
            f,
            "refused {} {layer} place {}",
            self.number(),
            self.place()
        )
    }
}

impl Error for ReadFault {}

// A table of its own: nothing takes any refusal, so no trait has both.
impl TooShort {
    /// The refusal number.
    pub fn number(&self) -> u8
        ensures { result ≡ short_number self.now }
    {
        13
    }
}
