//! Small units and calls of which the library's definitions tell one result each, in one statement.
#![tactic(auto)]

ghost use Rattle.samples.specs.Samples.{Samples};

/// Every sample.
pub fn samples()
    ensures { Samples }
{}
