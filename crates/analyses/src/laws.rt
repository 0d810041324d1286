//! Laws of the edges.
ghost use Rattle.bytecode.specs.declared.unit.Unit.{Unit as TheUnit};
ghost use Rattle.analyses.specs.Edges.{EdgesAreWays};

/// The edges of a unit are the ways by which its instructions lead from place to place, and all of them.
pub fn edges_are_ways()
    ensures { (u : TheUnit) → EdgesAreWays u }
{}
