//! The three analyses of a unit, solved.
ghost use Rattle.std.specs.Prelude.{◌≡◌, ◌<◌, [], take};
ghost use Rattle.bytecode.specs.declared.unit.Unit.{Unit as TheUnit};
ghost use Rattle.dataflow.specs.Pending.{IsEmpty};
ghost use Rattle.dataflow.specs.Takes.{at};
ghost use Rattle.facts.specs.Frames.{Fitting};
ghost use Rattle.analyses.specs.Frameworks.{types_of};
ghost use Rattle.workspace.specs.Contents.{IsSolution};
ghost use Rattle.workspace.specs.Policies.{AreEmpty};
ghost use Rattle.workspace.specs.Stored.{contents_of, facts_of, TypesAreSolved, RestIsSolved, AreSolutions};

use crate::found::{Found, copy_first, fact, solve};
use crate::policies::Policies;
use crate::shown::{Facts, TakeCounts};
use analyses::constants::Constants;
use analyses::graph::Graph;
use analyses::live::Live;
use analyses::types::Types;
use dataflow::policy::Policy;
use facts::cell::{ConstCell, TypeCell};
use facts::frame::Frame;
use facts::live::LiveSet;

/// The least solution of each analysis.
#[derive(Drop)]
pub(crate) struct Solutions {
    pub(crate) types: Found<Frame<TypeCell>>,
    pub(crate) constants: Found<Frame<ConstCell>>,
    pub(crate) lives: Found<LiveSet>,
}

impl Solutions {
    /// Of no unit.
    pub(crate) fn new() -> Solutions {
        Solutions {
            types: Found {
                facts: [Frame::Unreached; 128],
                takes: 0,
            },
            constants: Found {
                facts: [Frame::Unreached; 128],
                takes: 0,
            },
            lives: Found {
                facts: [LiveSet::new(); 128],
                takes: 0,
            },
        }
    }

    /// Takes types that are solved already, and solves the others anew.
    pub(crate) fn with_types<C: Policy, L: Policy>(
        &mut self,
        graph: &Graph,
        types: &Found<Frame<TypeCell>>,
        constants: &mut C,
        lives: &mut L,
    )
        requires { IsSolution Fitting (types_of graph.now) (at (types_of graph.now) (take graph.now.len types.now.facts)) types.now.takes }
        ensures solved { AreSolutions graph.now self.new }
        ensures emptied { IsEmpty (C.pending constants.new) × IsEmpty (L.pending lives.new) }
    {
        copy_first(&mut self.types.facts, &types.facts, graph.unit().len);
        self.types.takes = types.takes;
        self.solve_rest(graph, constants, lives);
    }

    /// Solves the types anew.
    pub(crate) fn solve_types<T: Policy>(&mut self, graph: &Graph, policy: &mut T)
        ensures solved { TypesAreSolved graph.now self.new }
        ensures rest { (self.new.constants ≡ self.old.constants) × (self.new.lives ≡ self.old.lives) }
        ensures emptied { IsEmpty (T.pending policy.new) }
    {
        solve::<Types, T>(graph, policy, &mut self.types);
    }

    /// Solves anew what the rules look at: all but the types.
    pub(crate) fn solve_rest<C: Policy, L: Policy>(
        &mut self,
        graph: &Graph,
        constants: &mut C,
        lives: &mut L,
    )
        ensures solved { RestIsSolved graph.now self.new }
        ensures types { self.new.types ≡ self.old.types }
        ensures emptied { IsEmpty (C.pending constants.new) × IsEmpty (L.pending lives.new) }
    {
        solve::<Constants, C>(graph, constants, &mut self.constants);
        solve::<Live, L>(graph, lives, &mut self.lives);
    }

    /// Solves all three anew.
    pub(crate) fn solve<T: Policy, C: Policy, L: Policy>(
        &mut self,
        graph: &Graph,
        policies: &mut Policies<T, C, L>,
    )
        ensures solved { AreSolutions graph.now self.new }
        ensures emptied { AreEmpty T.pending C.pending L.pending policies.new }
    {
        self.solve_types(graph, &mut policies.types);
        self.solve_rest(graph, &mut policies.constants, &mut policies.lives);
    }

    pub(crate) fn at(&self, place: usize) -> Facts
        requires { place < 128 }
        ensures { (u : TheUnit) → place < u.len → result ≡ facts_of (contents_of (record { unit = u; solutions = self.now; opened = [] })) place }
    {
        Facts {
            types: fact(&self.types.facts, place),
            constants: fact(&self.constants.facts, place),
            live: fact(&self.lives.facts, place),
        }
    }

    pub(crate) fn takes(&self) -> TakeCounts
        ensures { (u : TheUnit) → result ≡ (contents_of (record { unit = u; solutions = self.now; opened = [] })).takes }
    {
        TakeCounts {
            types: self.types.takes,
            constants: self.constants.takes,
            lives: self.lives.takes,
        }
    }
}
