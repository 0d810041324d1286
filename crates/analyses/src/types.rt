//! Type frames as an analysis, forward.

use crate::graph::Graph;
use dataflow::analysis::Analysis;
use facts::cell::TypeCell;
use facts::frame::Frame;
use facts::types::carry_types;

/// Before each place, of which kind each value is.
pub struct Types;

impl Analysis for Types {
    ghost use Rattle.facts.specs.Frames.{Fitting};
    ghost use Rattle.analyses.specs.Frameworks.{types_of};
    ghost use Rattle.analyses.specs.Lawful.{types_lawful};

    type Code = Graph;

    type Fact = Frame<TypeCell>;

    ghost valid = { λ unit. Fitting };

    ghost meaning = { types_of };

    ghost lawful = { types_lawful };

    fn nodes(graph: &Graph) -> usize {
        graph.unit().len
    }

    fn edge_count(graph: &Graph) -> usize {
        graph.edge_count()
    }

    #[inline(always)]
    fn edge(graph: &Graph, edge: usize) -> (usize, usize) {
        let edge = graph.edge(edge);
        (edge.start, edge.end)
    }

    fn seed(_graph: &Graph, node: usize) -> Frame<TypeCell> {
        if node == 0 {
            Frame::entry()
        } else {
            Frame::Unreached
        }
    }

    fn least(_graph: &Graph) -> Frame<TypeCell> {
        Frame::Unreached
    }

    #[inline(always)]
    fn join(_graph: &Graph, into: &mut Frame<TypeCell>, fact: &Frame<TypeCell>) -> bool {
        into.join(fact)
    }

    fn same(_graph: &Graph, a: &Frame<TypeCell>, b: &Frame<TypeCell>) -> bool {
        a.same(b)
    }

    #[inline(always)]
    fn is_least(_graph: &Graph, fact: &Frame<TypeCell>) -> bool {
        !fact.is_reached()
    }

    #[inline(always)]
    fn carry(graph: &Graph, edge: usize, fact: &mut Frame<TypeCell>) {
        carry_types(graph.instr_at_start(edge), fact);
    }

    #[inline(always)]
    fn carries_least(_graph: &Graph, _edge: usize, fact: &Frame<TypeCell>) -> bool {
        !fact.is_reached()
    }

    #[inline(always)]
    fn first_edge(graph: &Graph, node: usize) -> Option<usize> {
        graph.first_out(node)
    }

    #[inline(always)]
    fn next_edge(graph: &Graph, edge: usize) -> Option<usize> {
        graph.next_out(edge)
    }
}
