//! Laws of runs, by facts that solve the equations.
ghost use Rattle.sound.specs.Meaning.{ApplicableIsOne, TypesTell, ConstantsTell, TypesHold, NoStuckTurn, NeverStuck, ConstantsHold};

/// The typing and the machine agree on which instructions are applicable.
pub fn applicable_is_one()
    ensures { ApplicableIsOne }
{}

/// What a frame says of a state, in words and in the order of frames.
pub fn describing_is_above()
    ensures types { TypesTell }
    ensures constants { ConstantsTell }
{}

/// Type frames that solve the equations describe every state that a run comes to.
pub fn types_hold()
    ensures { TypesHold }
{}

/// A unit that the verifier accepts never ends stuck.
pub fn never_stuck()
    ensures turns { NoStuckTurn }
    ensures runs { NeverStuck }
{}

/// Constant frames that solve the equations describe every state that a run comes to, of a unit that is accepted or not.
pub fn constants_hold()
    ensures { ConstantsHold }
{}
