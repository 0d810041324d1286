//! What a workspace holds once a unit is loaded.
ghost use Rattle.std.specs.Prelude.{◌≡◌, ◌+◌, ◌<◌, ◌≤◌, ◌↔◌, IsTrue, [], ◌∷◌, length, take, drop, Some, MatchOption};
ghost use Rattle.dataflow.specs.Pending.{IsEmpty};
ghost use Rattle.dataflow.specs.Takes.{at};
ghost use Rattle.facts.specs.Frames.{Fitting};
ghost use Rattle.analyses.specs.Frameworks.{types_of};
ghost use Rattle.workspace.specs.Contents.{IsSolution};
ghost use Rattle.bytecode.specs.Files.{held};
ghost use Rattle.rewrite.specs.Choices.{InRange, NothingToDo, LowestChange};
ghost use Rattle.workspace.specs.Does.{Holds, Tidies};
ghost use Rattle.workspace.specs.Policies.{AreEmpty};
ghost use Rattle.workspace.specs.Stored.{contents_of, facts_of, IsYielded, TypesAreSolved, Changes, Amends, Reverts};

use crate::changes::{put, put_back};
use crate::found::{Found, fact};
use crate::policies::Policies;
use crate::shown::{Facts, TakeCounts};
use crate::solutions::Solutions;
use crate::trail::{Change, Trail};
use analyses::graph::Graph;
use bytecode::instr::Instr;
use bytecode::unit::Unit;
use dataflow::policy::Policy;
use facts::cell::TypeCell;
use facts::frame::Frame;
use rewrite::change::first_change;
use rewrite::yields::some_rule_yields;
use std::marker::Model;

/// A unit, its facts, and what the open attempts have changed.
#[derive(Drop)]
pub(crate) struct Held {
    unit: Unit,
    solutions: Solutions,
    trail: Trail,
}

impl Model for Held {
    ghost use Rattle.bytecode.specs.Files.{held};
    ghost use Rattle.workspace.specs.Record.{codes_at, IsRecord};
    ghost use Rattle.workspace.specs.Stored.{Stored};

    ghost Value = { Stored };

    ghost view = { λ h. record {
      unit = h.unit;
      solutions = h.solutions;
      opened = codes_at (held h.unit) h.trail.changes h.trail.marks;
    } };

    ghost invariant = { λ h. IsRecord h.unit h.trail };
}

impl Held {
    /// HALT, with nothing solved.
    pub(crate) fn new() -> Held {
        Held {
            unit: Unit::halt(),
            solutions: Solutions::new(),
            trail: Trail::new(),
        }
    }

    /// Takes another unit, whose types are solved, with no open attempt.
    pub(crate) fn load<C: Policy, L: Policy>(
        &mut self,
        graph: &Graph,
        types: &Found<Frame<TypeCell>>,
        constants: &mut C,
        lives: &mut L,
    )
        requires { IsSolution Fitting (types_of graph.now) (at (types_of graph.now) (take graph.now.len types.now.facts)) types.now.takes }
        ensures holds { Holds graph.now [] (Some (contents_of self.new)) }
        ensures emptied { IsEmpty (C.pending constants.new) × IsEmpty (L.pending lives.new) }
    {
        self.unit.turn_to(graph.unit());
        self.solutions.with_types(graph, types, constants, lives);
        self.trail.reset();
    }

    pub(crate) fn unit(&self) -> &Unit
        ensures { result.now ≡ self.now.unit }
    {
        &self.unit
    }

    /// How many attempts are open.
    pub(crate) fn depth(&self) -> u8
        ensures depth { result ≡ length self.now.opened }
        ensures low { result ≤ 8 }
    {
        self.trail.depth()
    }

    /// The facts at a place.
    pub(crate) fn facts_at(&self, place: usize) -> Facts
        requires { place < self.now.unit.len }
        ensures { result ≡ facts_of (contents_of self.now) place }
    {
        self.solutions.at(place)
    }

    pub(crate) fn take_counts(&self) -> TakeCounts
        ensures { result ≡ (contents_of self.now).takes }
    {
        self.solutions.takes()
    }

    /// Opens an attempt, and answers its depth.
    pub(crate) fn open(&mut self) -> u8
        requires { length self.old.opened < 8 }
        ensures depth { result ≡ length self.old.opened + 1 }
        ensures opens { self.new ≡ record {
          unit = self.old.unit;
          solutions = self.old.solutions;
          opened = held self.old.unit ∷ self.old.opened;
        } }
    {
        self.trail.open();
        self.trail.depth()
    }

    /// Hands the innermost attempt's changes to the attempt around it, and forgets them where there is none.
    pub(crate) fn keep(&mut self)
        requires { 0 < length self.old.opened }
        ensures { self.new ≡ record {
          unit = self.old.unit;
          solutions = self.old.solutions;
          opened = drop 1 self.old.opened;
        } }
    {
        self.trail.close();
        if self.trail.depth() == 0 {
            self.trail.forget();
        }
    }

    /// Puts back the code that was held when the innermost attempt was opened, and solves anew.
    pub(crate) fn abandon<T: Policy, C: Policy, L: Policy>(
        &mut self,
        graph: &mut Graph,
        policies: &mut Policies<T, C, L>,
    )
        requires { 0 < length self.old.opened }
        ensures reverts { Reverts (contents_of self.old) (contents_of self.new) }
        ensures emptied { AreEmpty T.pending C.pending L.pending policies.new }
    {
        let mark = self.trail.close();
        put_back(&mut self.unit, &mut self.trail, mark);
        graph.set(&self.unit);
        self.solutions.solve(graph, policies);
    }

    /// Whether some rule yields the instruction at a place.
    pub(crate) fn may_become(&self, place: usize, instr: Instr) -> bool
        requires { place < self.now.unit.len }
        ensures decides { IsTrue result ↔ IsYielded (contents_of self.now) place instr }
        ensures in_range { IsTrue result → InRange instr }
    {
        some_rule_yields(
            self.unit.code[place],
            &fact(&self.solutions.constants.facts, place),
            fact(&self.solutions.lives.facts, place),
            instr,
        )
    }

    /// Makes a change that a rule yields, records it and solves anew.
    pub(crate) fn change<T: Policy, C: Policy, L: Policy>(
        &mut self,
        place: usize,
        instr: Instr,
        graph: &mut Graph,
        policies: &mut Policies<T, C, L>,
    )
        requires inside { place < self.old.unit.len }
        requires yielded { IsYielded (contents_of self.old) place instr }
        requires in_range { InRange instr }
        ensures changes { Changes (contents_of self.old) place instr (contents_of self.new) }
        ensures emptied { AreEmpty T.pending C.pending L.pending policies.new }
    {
        self.amend(
            place,
            instr,
            graph,
            &mut policies.constants,
            &mut policies.lives,
        );
        self.solve_types(graph, &mut policies.types);
    }

    /// Makes a change that a rule yields, records it and solves anew what the rules look at.
    fn amend<C: Policy, L: Policy>(
        &mut self,
        place: usize,
        instr: Instr,
        graph: &mut Graph,
        constants: &mut C,
        lives: &mut L,
    )
        requires inside { place < self.old.unit.len }
        requires yielded { IsYielded (contents_of self.old) place instr }
        requires in_range { InRange instr }
        ensures amends { Amends self.old place instr self.new }
        ensures graph { graph.new ≡ self.new.unit }
        ensures emptied { IsEmpty (C.pending constants.new) × IsEmpty (L.pending lives.new) }
    {
        self.trail.push(Change {
            place,
            old: self.unit.code[place],
        });
        put(&mut self.unit, place, instr);
        graph.set(&self.unit);
        self.solutions.solve_rest(graph, constants, lives);
    }

    /// Solves the types anew, over the tables of the held unit.
    fn solve_types<T: Policy>(&mut self, graph: &Graph, policy: &mut T)
        requires { graph.now ≡ self.old.unit }
        ensures solved { TypesAreSolved self.new.unit self.new.solutions }
        ensures rest { self.new ≡ record {
          unit = self.old.unit;
          solutions = record {
            types = self.new.solutions.types;
            constants = self.old.solutions.constants;
            lives = self.old.solutions.lives;
          };
          opened = self.old.opened;
        } }
        ensures emptied { IsEmpty (T.pending policy.new) }
    {
        self.solutions.solve_types(graph, policy);
    }

    /// Applies the lowest rule at the lowest place that has one, and again, until none yields anything; answers the number of changes.
    pub(crate) fn tidy<T: Policy, C: Policy, L: Policy>(
        &mut self,
        graph: &mut Graph,
        policies: &mut Policies<T, C, L>,
    ) -> usize
        ensures tidies { Tidies result (contents_of self.old) (Some (contents_of self.new)) }
        ensures emptied { AreEmpty T.pending C.pending L.pending policies.new }
    {
        policies.clear();
        let mut made: usize = 0;
        while let Some(change) = self.next_change() {
            self.amend(
                change.place,
                change.instr,
                graph,
                &mut policies.constants,
                &mut policies.lives,
            );
            made += 1;
        }
        // No rule looks at the types, so they are solved once, for the code that is left.
        if made > 0 {
            self.solve_types(graph, &mut policies.types);
        }
        made
    }

    fn next_change(&self) -> Option<rewrite::change::Change>
        ensures { MatchOption result
            (NothingToDo self.now.unit (contents_of self.now).constants (contents_of self.now).lives)
            (λ x. LowestChange self.now.unit (contents_of self.now).constants (contents_of self.now).lives x × InRange x.instr) }
    {
        first_change(
            &self.unit,
            &self.solutions.constants.facts,
            &self.solutions.lives.facts,
        )
    }
}
