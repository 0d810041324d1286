//! The edges of a unit, out of each place and into it.
ghost use Rattle.std.specs.Prelude.{◌≡◌, ◌+◌, ◌<◌, length, OnErr};
ghost use Rattle.bytecode.specs.Files.{Outcome, reading};
ghost use Rattle.analyses.specs.Edges.{edges_of, edge_at, start_of, end_of, instr_at};
ghost use Rattle.analyses.specs.Graphs.{NextKey, IsGraph};

use crate::chains::{Chains, Side, entry};
use crate::edge::Edge;
use crate::edges::Edges;
use crate::ways::leads_alike;
use bytecode::fault::ReadFault;
use bytecode::instr::Instr;
use bytecode::read::read_into;
use bytecode::unit::Unit;
use std::marker::Model;

/// A unit with a table of its edges, by their starts and then by their ends.
#[derive(Drop)]
pub struct Graph {
    unit: Unit,
    edges: Edges,
    out: Chains,
    into: Chains,
}

// The unit; the tables are made of it.
impl Model for Graph {
    ghost use Rattle.bytecode.specs.declared.unit.Unit.{Unit as TheUnit};
    ghost use Rattle.analyses.specs.Graphs.{IsGraph};

    ghost Value = { TheUnit };

    ghost view = { λ g. g.unit };

    ghost invariant = { λ g. IsGraph g.unit g.edges g.out g.into };
}

impl Graph {
    pub fn new(unit: &Unit) -> Graph
        ensures { result ≡ unit.now }
    {
        let edges = Edges::of(unit);
        let out = Chains::new(edges.as_slice(), Side::Start);
        let into = Chains::new(edges.as_slice(), Side::End);
        Graph {
            unit: *unit,
            edges,
            out,
            into,
        }
    }

    /// Turns to another unit.
    pub fn set(&mut self, unit: &Unit)
        ensures { self.new ≡ unit.now }
    {
        // A change of the code moves an edge only now and then.
        let alike = leads_alike(&self.unit, unit);
        self.unit.turn_to(unit);
        if !alike {
            find_edges(unit, &mut self.edges, &mut self.out, &mut self.into);
        }
    }

    /// Turns to the unit that a file's bytes are. A refusal leaves it as it was.
    pub fn read(&mut self, file: &[u8]) -> Result<(), ReadFault>
        ensures answer { Outcome file.now (reading result self.new) }
        ensures refused { OnErr result (self.new ≡ self.old) }
    {
        read_into(file, &mut self.unit)?;
        find_edges(&self.unit, &mut self.edges, &mut self.out, &mut self.into);
        Ok(())
    }

    pub fn unit(&self) -> &Unit
        ensures { result.now ≡ self.now }
    {
        &self.unit
    }

    /// The instruction at a place, and NOP past the last.
    pub fn instr(&self, place: usize) -> Instr
        ensures { result ≡ instr_at self.now place }
    {
        self.unit
            .instructions()
            .get(place)
            .copied()
            .unwrap_or(Instr::Nop)
    }

    pub fn edge_count(&self) -> usize
        ensures { result ≡ length (edges_of self.now) }
    {
        self.edges.as_slice().len()
    }

    /// The edge with this number.
    pub(crate) fn edge(&self, edge: usize) -> Edge
        requires { edge < length (edges_of self.now) }
        ensures { result ≡ edge_at self.now edge }
    {
        self.edges.as_slice()[edge]
    }

    /// The instruction at a place of the unit.
    // Read where it stands: after a test of the place it would be put together anew.
    fn instr_within(&self, place: usize) -> Instr
        requires { place < self.now.len }
        ensures { result ≡ instr_at self.now place }
    {
        self.unit.code[place]
    }

    /// The instruction at the place that an edge comes from.
    pub(crate) fn instr_at_start(&self, edge: usize) -> Instr
        requires { edge < length (edges_of self.now) }
        ensures { result ≡ instr_at self.now (start_of self.now edge) }
    {
        self.instr_within(self.edge(edge).start)
    }

    /// The instruction at the place that an edge goes to.
    pub(crate) fn instr_at_end(&self, edge: usize) -> Instr
        requires { edge < length (edges_of self.now) }
        ensures { result ≡ instr_at self.now (end_of self.now edge) }
    {
        self.instr_within(self.edge(edge).end)
    }

    /// The lowest edge out of a place.
    pub(crate) fn first_out(&self, place: usize) -> Option<usize>
        ensures { NextKey (start_of self.now) (length (edges_of self.now)) place 0 result }
    {
        entry(&self.out.first, place)
    }

    /// The lowest edge above `edge` that is out of the same place.
    pub(crate) fn next_out(&self, edge: usize) -> Option<usize>
        requires { edge < length (edges_of self.now) }
        ensures { NextKey (start_of self.now) (length (edges_of self.now)) (start_of self.now edge) (edge + 1) result }
    {
        entry(&self.out.next, edge)
    }

    /// The lowest edge into a place.
    pub(crate) fn first_into(&self, place: usize) -> Option<usize>
        ensures { NextKey (end_of self.now) (length (edges_of self.now)) place 0 result }
    {
        entry(&self.into.first, place)
    }

    /// The lowest edge above `edge` that is into the same place.
    pub(crate) fn next_into(&self, edge: usize) -> Option<usize>
        requires { edge < length (edges_of self.now) }
        ensures { NextKey (end_of self.now) (length (edges_of self.now)) (end_of self.now edge) (edge + 1) result }
    {
        entry(&self.into.next, edge)
    }
}

/// Finds the edges of a unit anew, out of each place and into it.
fn find_edges(unit: &Unit, edges: &mut Edges, out: &mut Chains, into: &mut Chains)
    requires room { (length out.old.next ≡ 256) × (length into.old.next ≡ 256) }
    ensures { IsGraph unit.now edges.new out.new into.new }
{
    edges.fill(unit);
    out.fill(edges.as_slice(), Side::Start);
    into.fill(edges.as_slice(), Side::End);
}
