//! Sets of live locals as an analysis, backward.
use crate::graph::Graph;
use dataflow::analysis::Analysis;
use facts::live::{LiveSet, carry_live};

/// After each place, which locals a run may load before it stores to them. Each edge of the code is followed from its end to its start.
pub struct Live;

impl Analysis for Live {
    ghost use Rattle.facts.specs.Live.{IsSet};
    ghost use Rattle.analyses.specs.Frameworks.{live_of};
    ghost use Rattle.analyses.specs.Lawful.{live_lawful};

    type Code = Graph;

    type Fact = LiveSet;

    ghost valid = { λ unit. IsSet };

    ghost meaning = { live_of };

    ghost lawful = { live_lawful };

    fn nodes(graph: &Graph) -> usize {
        graph.unit().len
    }

    fn edge_count(graph: &Graph) -> usize {
        graph.edge_count()
    }

    fn edge(graph: &Graph, edge: usize) -> (usize, usize) {
        let edge = graph.edge(edge);
        (edge.end, edge.start)
    }

    fn seed(_graph: &Graph, _node: usize) -> LiveSet {
        LiveSet::new()
    }

    fn least(_graph: &Graph) -> LiveSet {
        LiveSet::new()
    }

    fn join(_graph: &Graph, into: &mut LiveSet, fact: &LiveSet) -> bool {
        let joined = into.union(*fact);
        let changed = !into.same(joined);
        *into = joined;
        changed
    }

    fn same(_graph: &Graph, a: &LiveSet, b: &LiveSet) -> bool {
        a.same(*b)
    }

    fn carry(graph: &Graph, edge: usize, fact: &mut LiveSet) {
        *fact = carry_live(graph.instr_at_end(edge), *fact);
    }

    fn first_edge(graph: &Graph, node: usize) -> Option<usize> {
        graph.first_into(node)
    }

    fn next_edge(graph: &Graph, edge: usize) -> Option<usize> {
        graph.next_into(edge)
    }
}
