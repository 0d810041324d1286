//! Why an instruction is not applicable.
ghost use Rattle.std.specs.Prelude.{◌≡◌};
ghost use Rattle.facts.specs.Types.{reason_number};

#[derive(Clone, Copy, PartialEq, Eq, Debug)]
pub enum Reason {
    /// The stack has fewer values than the instruction takes.
    TooFew,
    /// More than 8 values would be left on the stack.
    TooMany,
    /// A value is not of the kind that the instruction asks for, or the local that is loaded is Unusable.
    WrongKind,
    /// The frame at the place is Clash.
    Clash,
}

impl Reason {
    pub fn number(self) -> u8
        ensures { result ≡ reason_number self }
    {
        match self {
            Reason::TooFew => 1,
            Reason::TooMany => 2,
            Reason::WrongKind => 3,
            Reason::Clash => 4,
        }
    }
}
