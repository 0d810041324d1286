//! An analysis over a line of nodes: which of them the last one reaches.
ghost use Rattle.std.specs.Prelude.{◌≡◌, ◌-◌, ◌*◌, ◌≤◌};
ghost use Rattle.std.proofs.Common.{rules};

use dataflow::analysis::Analysis;

/// So many nodes, each with an edge to the next and one back: edge 2 k leads from node k to the next, and edge 2 k + 1 back to k.
pub struct Line;

/// How long the line is, and where it is entered.
#[derive(Clone, Copy)]
pub struct Code {
    /// How many nodes there are, 0 to 128.
    pub nodes: usize,
    /// The node that is reached from the start.
    pub entry: usize,
    ghost few: { nodes ≤ 128 },
}

impl Code {
    /// So many nodes, of which the last is the entry.
    pub fn from_the_last(nodes: usize) -> Code
        requires { nodes ≤ 128 }
        ensures nodes { result.nodes ≡ nodes }
        ensures entry { result.entry ≡ nodes - 1 }
    {
        Code {
            nodes,
            entry: nodes.saturating_sub(1),
        }
    }

    /// How many edges there are.
    fn edges(&self) -> usize
        ensures { result ≡ 2 * (self.now.nodes - 1) }
    {
        2 * self.nodes.saturating_sub(1)
    }
}

impl Analysis for Line {
    ghost use Rattle.clock.specs.Lines.{line_of};

    type Code = Code;

    type Fact = bool;

    ghost valid = { λ code fact. Unit {0} };

    ghost meaning = { line_of };

    ghost lawful = { Prim.search rules };

    fn nodes(code: &Code) -> usize {
        code.nodes
    }

    fn edge_count(code: &Code) -> usize {
        code.edges()
    }

    fn edge(_code: &Code, edge: usize) -> (usize, usize) {
        let from = (edge + 1) / 2;
        if edge % 2 == 0 {
            (from, from + 1)
        } else {
            (from, from - 1)
        }
    }

    fn seed(code: &Code, node: usize) -> bool {
        node == code.entry
    }

    fn least(_code: &Code) -> bool {
        false
    }

    fn join(_code: &Code, into: &mut bool, fact: &bool) -> bool {
        let changed = *fact && !*into;
        *into = *into || *fact;
        changed
    }

    fn same(_code: &Code, a: &bool, b: &bool) -> bool {
        a == b
    }

    fn carry(_code: &Code, _edge: usize, _fact: &mut bool) {}

    fn first_edge(code: &Code, node: usize) -> Option<usize> {
        if node < code.nodes && code.nodes > 1 {
            Some((2 * node).saturating_sub(1))
        } else {
            None
        }
    }

    fn next_edge(code: &Code, edge: usize) -> Option<usize> {
        if edge % 2 == 1 && edge + 1 < code.edges() {
            Some(edge + 1)
        } else {
            None
        }
    }
}
