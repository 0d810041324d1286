//! The edges of a unit, in a table.
ghost use Rattle.std.specs.Prelude.{◌≡◌, ◌<◌, ◌++◌, [], length};
ghost use Rattle.std.specs.Option.{option_to_list};
ghost use Rattle.analyses.specs.Edges.{edges_of};

use crate::edge::Edge;
use crate::ways::{in_order, way};
use bytecode::unit::Unit;
use std::marker::Model;

/// At most 256 edges: two for each place of a unit.
#[derive(Drop)]
pub(crate) struct Edges {
    table: [Edge; 256],
    count: usize,
}

impl Model for Edges {
    ghost use Rattle.std.specs.Prelude.{◌≤◌, List, take};
    ghost use Rattle.analyses.specs.declared.edge.Edge.{Edge as AnEdge};

    ghost Value = { List AnEdge };

    ghost view = { λ edges. take edges.count edges.table };

    ghost invariant = { λ edges. edges.count ≤ 256 };
}

impl Edges {
    fn new() -> Edges
        ensures { result ≡ [] }
    {
        Edges {
            table: [Edge {
                start: 0,
                end: 0,
                jump: false,
            }; 256],
            count: 0,
        }
    }

    fn push(&mut self, edge: Option<Edge>)
        requires { length self.old < 256 }
        ensures { self.new ≡ self.old ++ option_to_list edge }
    {
        if let Some(edge) = edge {
            self.table[self.count] = edge;
            self.count += 1;
        }
    }

    fn clear(&mut self)
        ensures { self.new ≡ [] }
    {
        self.count = 0;
    }

    /// Turns to the edges of a unit, by their starts and then by their ends.
    pub(crate) fn fill(&mut self, unit: &Unit)
        ensures { self.new ≡ edges_of unit.now }
    {
        self.clear();
        for place in 0..unit.len {
            let instr = unit.code[place];
            let next = way(unit.len, place, &instr, false);
            let jump = way(unit.len, place, &instr, true);
            let (first, second) = in_order(next, jump);
            self.push(first);
            self.push(second);
        }
    }

    /// The edges of a unit, by their starts and then by their ends.
    pub(crate) fn of(unit: &Unit) -> Edges
        ensures { result ≡ edges_of unit.now }
    {
        let mut edges = Edges::new();
        edges.fill(unit);
        edges
    }

    pub(crate) fn as_slice(&self) -> &[Edge]
        ensures { result.now ≡ self.now }
    {
        &self.table[..self.count]
    }
}
