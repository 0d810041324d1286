//! The policy that takes the highest node.
ghost use Rattle.std.specs.Prelude.{◌≡◌, ℕ, ◌+◌, ◌<◌, ◌≤◌, true, nat_lt, IfSome, MatchOption};
ghost use Rattle.dataflow.specs.Highest.{is_marked, NoneMarked, IsHighest};
ghost use Rattle.dataflow.specs.Pending.{IsEmpty, Takes};

use crate::policy::Policy;
use std::marker::Model;

/// Takes the highest pending node.
#[derive(Drop)]
pub struct Highest {
    // Above every pending node, and where the next take begins to look.
    end: usize,
    // Whether each node is pending. Bits of a number would be shifted by two registers at each call.
    marks: [bool; 128],
}

impl Model for Highest {
    ghost use Rattle.std.specs.Prelude.{List, Bool};
    ghost use Rattle.dataflow.specs.Highest.{EndsAt};

    // Whether each node is pending.
    ghost Value = { List Bool };

    ghost view = { λ h. h.marks };

    ghost invariant = { λ h. EndsAt h.marks h.end };
}

impl Highest {
    pub fn new() -> Highest
        ensures { IsEmpty (is_marked result) }
    {
        Highest {
            end: 0,
            marks: [false; 128],
        }
    }
}

impl Policy for Highest {
    ghost pending = { is_marked };

    fn clear(&mut self) {
        if self.end > 0 {
            self.marks = [false; 128];
            self.end = 0;
        }
    }

    fn add(&mut self, node: usize) -> bool {
        if node >= 128 {
            return false;
        }
        self.marks[node] = true;
        self.end = self.end.max(node + 1);
        true
    }

    fn take(&mut self) -> Option<usize>
        ensures taken { Takes (is_marked self.old) (is_marked self.new) result }
        ensures highest { IfSome result (IsHighest (is_marked self.old)) }
    {
        let Some(node) = highest_below(&self.marks, self.end) else {
            self.end = 0;
            return None;
        };
        self.marks[node] = false;
        self.end = node;
        Some(node)
    }

    fn fill(&mut self, count: usize) {
        let count = count.min(128);
        self.clear();
        mark_below(&mut self.marks, count);
        self.end = count;
    }
}

/// Marks the nodes below `count`.
fn mark_below(marks: &mut [bool; 128], count: usize)
    requires few { count ≤ 128 }
    requires unmarked { NoneMarked marks.old 0 128 }
    ensures { (v : ℕ) → is_marked marks.new v ≡ nat_lt v count }
{
    for node in 0..count {
        marks[node] = true;
    }
}

/// The highest node below `end` that is marked, if one is.
fn highest_below(marks: &[bool; 128], end: usize) -> Option<usize>
    requires { end ≤ 128 }
    ensures { MatchOption result (NoneMarked marks.now 0 end) (λ v. (v < end) × (is_marked marks.now v ≡ true) × NoneMarked marks.now (v + 1) end) }
{
    for node in (0..end).rev() {
        if marks[node] {
            return Some(node);
        }
    }
    None
}
