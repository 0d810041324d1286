//! What sets of live locals say of runs.
ghost use Rattle.sound.specs.LiveMeaning.{LiveTurns, LiveHold};

/// The rest of a run, for every budget, is the same whatever stands in the locals that are not live.
pub fn live_hold()
    ensures turns { LiveTurns }
    ensures runs { LiveHold }
{}
