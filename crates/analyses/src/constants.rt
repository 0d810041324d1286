//! Constant frames as an analysis, forward.

use crate::graph::Graph;
use dataflow::analysis::Analysis;
use facts::cell::ConstCell;
use facts::constants::carry_constants;
use facts::frame::Frame;

/// Before each place, which values are known.
pub struct Constants;

impl Analysis for Constants {
    ghost use Rattle.facts.specs.Frames.{Fitting};
    ghost use Rattle.analyses.specs.Frameworks.{constants_of};
    ghost use Rattle.analyses.specs.Lawful.{constants_lawful};

    type Code = Graph;

    type Fact = Frame<ConstCell>;

    ghost valid = { λ unit. Fitting };

    ghost meaning = { constants_of };

    ghost lawful = { constants_lawful };

    fn nodes(graph: &Graph) -> usize {
        graph.unit().len
    }

    fn edge_count(graph: &Graph) -> usize {
        graph.edge_count()
    }

    #[inline(always)]
    fn edge(graph: &Graph, edge: usize) -> (usize, usize) {
        let edge = graph.edge(edge);
        (edge.start, edge.end)
    }

    fn seed(_graph: &Graph, node: usize) -> Frame<ConstCell> {
        if node == 0 {
            Frame::entry()
        } else {
            Frame::Unreached
        }
    }

    fn least(_graph: &Graph) -> Frame<ConstCell> {
        Frame::Unreached
    }

    #[inline(always)]
    fn join(_graph: &Graph, into: &mut Frame<ConstCell>, fact: &Frame<ConstCell>) -> bool {
        into.join(fact)
    }

    fn same(_graph: &Graph, a: &Frame<ConstCell>, b: &Frame<ConstCell>) -> bool {
        a.same(b)
    }

    #[inline(always)]
    fn is_least(_graph: &Graph, fact: &Frame<ConstCell>) -> bool {
        !fact.is_reached()
    }

    #[inline(always)]
    fn carry(graph: &Graph, edge: usize, fact: &mut Frame<ConstCell>) {
        carry_constants(graph.instr_at_start(edge), graph.edge(edge).jump, fact);
    }

    #[inline(always)]
    fn carries_least(_graph: &Graph, _edge: usize, fact: &Frame<ConstCell>) -> bool {
        !fact.is_reached()
    }

    #[inline(always)]
    fn first_edge(graph: &Graph, node: usize) -> Option<usize> {
        graph.first_out(node)
    }

    #[inline(always)]
    fn next_edge(graph: &Graph, edge: usize) -> Option<usize> {
        graph.next_out(edge)
    }
}
