//! Why a call is refused.
ghost use Rattle.std.specs.Prelude.{◌≡◌};
ghost use Rattle.workspace.specs.Refusals.{refusal_number, load_number, load_place, from_read};
ghost use Rattle.workspace.specs.declared.refusal.LoadFault.TheVariants.{Verifier};

use analyses::verify::VerifierFault;
use bytecode::fault::{FileFault, ReadFault, UnitFault};

/// Why a file is not loaded, by the layer that refuses it, with the lower fault whole.
#[derive(Clone, Copy, PartialEq, Eq, Debug)]
pub enum LoadFault {
    /// An attempt is open; no layer of the file is looked at.
    AttemptOpen,
    File(FileFault),
    Unit(UnitFault),
    Verifier(VerifierFault),
}

/// Why any other call is refused.
#[derive(Clone, Copy, PartialEq, Eq, Debug)]
pub enum Refusal {
    /// An attempt is open at a write-out.
    AttemptOpen,
    /// No unit is loaded.
    NoUnit,
    /// Eight attempts are open.
    TooDeep,
    /// The token's depth is not the innermost attempt's.
    NotInnermost,
    /// The unit has no such place.
    NoPlace,
    /// No rule yields the instruction.
    NoRule,
    /// The caller's buffer is too short.
    TooShort,
}

impl From<ReadFault> for LoadFault {
    ghost from_gives = { λ fault result. result ≡ from_read fault };

    fn from(fault: ReadFault) -> LoadFault {
        match fault {
            ReadFault::File(fault) => LoadFault::File(fault),
            ReadFault::Unit(fault) => LoadFault::Unit(fault),
        }
    }
}

impl From<VerifierFault> for LoadFault {
    ghost from_gives = { λ fault result. result ≡ Verifier fault };

    fn from(fault: VerifierFault) -> LoadFault {
        LoadFault::Verifier(fault)
    }
}

impl LoadFault {
    /// The refusal number.
    pub fn number(&self) -> u8
        ensures { result ≡ load_number self.now }
    {
        match self {
            LoadFault::AttemptOpen => 1,
            LoadFault::File(fault) => ReadFault::File(*fault).number(),
            LoadFault::Unit(fault) => ReadFault::Unit(*fault).number(),
            LoadFault::Verifier(fault) => fault.number(),
        }
    }

    /// The place that is named, 0 where none is.
    pub fn place(&self) -> usize
        ensures { result ≡ load_place self.now }
    {
        match self {
            LoadFault::AttemptOpen | LoadFault::File(_) => 0,
            LoadFault::Unit(fault) => fault.place,
            LoadFault::Verifier(fault) => fault.place,
        }
    }
}

impl Refusal {
    /// The refusal number. None of these names a place, which is told as 0.
    pub fn number(&self) -> u8
        ensures { result ≡ refusal_number self.now }
    {
        match self {
            Refusal::AttemptOpen => 1,
            Refusal::NoUnit => 2,
            Refusal::TooDeep => 9,
            Refusal::NotInnermost => 10,
            Refusal::NoPlace => 11,
            Refusal::NoRule => 12,
            Refusal::TooShort => 13,
        }
    }
}
