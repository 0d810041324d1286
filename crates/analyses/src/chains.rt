//! The edges that share a start, or an end, from one to the next.
ghost use Rattle.std.specs.Prelude.{◌≡◌, ℕ, ◌<◌, ◌≤◌, length, None, slice_index_or};
ghost use Rattle.analyses.specs.Graphs.{Chained, place_at, key_at};

use crate::edge::Edge;

/// Which of the two places of an edge.
#[derive(Clone, Copy)]
pub(crate) enum Side {
    Start,
    End,
}

impl Side {
    fn of(self, edge: &Edge) -> usize
        ensures { result ≡ place_at self edge.now }
    {
        match self {
            Side::Start => edge.start,
            Side::End => edge.end,
        }
    }
}

/// The edges out of each place, or those into it, from the lowest on.
// An edge's number takes one byte: there are at most 256.
#[derive(Clone, Copy)]
pub(crate) struct Chains {
    pub(crate) first: [Option<u8>; 128],
    // For each edge, the next of the same place.
    pub(crate) next: [Option<u8>; 256],
}

impl Chains {
    pub(crate) fn new(edges: &[Edge], side: Side) -> Chains
        requires few { length edges.now ≤ 256 }
        requires within { (e : ℕ) → e < length edges.now → key_at side edges.now e < 128 }
        ensures { Chained (key_at side edges.now) (length edges.now) 0 result.first result.next }
    {
        let mut chains = Chains {
            first: [None; 128],
            next: [None; 256],
        };
        chains.fill(edges, side);
        chains
    }

    /// Turns to other edges. What it held past them stays.
    // From the last edge down: the edge at hand is the lowest so far of its place.
    pub(crate) fn fill(&mut self, edges: &[Edge], side: Side)
        requires few { length edges.now ≤ 256 }
        requires within { (e : ℕ) → e < length edges.now → key_at side edges.now e < 128 }
        requires room { length self.old.next ≡ 256 }
        ensures { Chained (key_at side edges.now) (length edges.now) 0 self.new.first self.new.next }
    {
        self.first = [None; 128];
        for edge in (0..edges.len()).rev() {
            let place = side.of(&edges[edge]);
            self.next[edge] = self.first[place];
            self.first[place] = Some(edge as u8);
        }
    }
}

/// What a table says; none past its end.
pub(crate) fn entry(table: &[Option<u8>], at: usize) -> Option<usize>
    ensures { result ≡ slice_index_or table.now at None }
{
    Some(usize::from((*table.get(at)?)?))
}
