//! The policy that takes the node added longest ago.
ghost use Rattle.std.specs.Prelude.{◌≡◌, ℕ, ◌<◌, ◌≤◌, true, false, [], ◌∷◌, ◌++◌, min, slice_index_or};
ghost use Rattle.dataflow.specs.FirstIn.{is_member, rising, window, TakesFirst, IsRing};
ghost use Rattle.dataflow.specs.Pending.{IsEmpty, AreBelow, Adds, Takes};

use crate::policy::Policy;
use std::marker::Model;

/// Takes the pending node that was added longest ago. No call but `clear` goes over the nodes.
#[derive(Drop)]
pub struct FirstIn {
    // A ring: the first node is at `head`, and the next is behind it, around the end.
    head: usize,
    len: usize,
    slots: [u8; 128],
    // Whether each node is in the ring, so that `add` need not go over them.
    marks: [bool; 128],
}

impl Model for FirstIn {
    ghost use Rattle.std.specs.Prelude.{ℕ, List};
    ghost use Rattle.dataflow.specs.FirstIn.{window, IsRing};

    // The pending nodes, the one that was added longest ago first.
    ghost Value = { List ℕ };

    ghost view = { λ q. window q.head q.len q.slots };

    ghost invariant = { λ q. IsRing q.head q.len q.slots q.marks };
}

impl FirstIn {
    pub fn new() -> FirstIn
        ensures queue { result ≡ [] }
        ensures empty { IsEmpty (is_member result) }
    {
        FirstIn {
            head: 0,
            len: 0,
            slots: [0; 128],
            marks: [false; 128],
        }
    }
}

impl Policy for FirstIn {
    ghost pending = { is_member };

    fn clear(&mut self)
        ensures empty { IsEmpty (is_member self.new) }
        ensures queue { self.new ≡ [] }
    {
        // Without a node there is no mark.
        if self.len > 0 {
            self.len = 0;
            self.marks = [false; 128];
        }
    }

    fn add(&mut self, node: usize) -> bool
        ensures added { Adds node (is_member self.old) (is_member self.new) result }
        ensures appended { node < 128 → is_member self.old node ≡ false → self.new ≡ self.old ++ node ∷ [] }
        ensures kept { is_member self.old node ≡ true → self.new ≡ self.old }
        ensures refused { 128 ≤ node → self.new ≡ self.old }
    {
        if node >= 128 {
            return false;
        }
        if !self.marks[node] {
            self.marks[node] = true;
            self.slots[(self.head + self.len) % 128] = node as u8;
            self.len += 1;
        }
        true
    }

    fn take(&mut self) -> Option<usize>
        ensures taken { Takes (is_member self.old) (is_member self.new) result }
        ensures first { TakesFirst self.old self.new result }
    {
        if self.len == 0 {
            return None;
        }
        let node = self.slots[self.head] as usize;
        self.head = (self.head + 1) % 128;
        self.len -= 1;
        self.marks[node] = false;
        Some(node)
    }

    fn fill(&mut self, count: usize)
        ensures filled { AreBelow count (is_member self.new) }
        ensures queue { self.new ≡ rising (min count 128) }
    {
        let count = count.min(128);
        self.clear();
        stand_in_order(&mut self.slots, &mut self.marks, count);
        self.head = 0;
        self.len = count;
    }
}

/// Makes the nodes below `count` stand in the ring in rising order, from the first slot on.
fn stand_in_order(slots: &mut [u8; 128], marks: &mut [bool; 128], count: usize)
    requires few { count ≤ 128 }
    requires unmarked { (v : ℕ) → slice_index_or marks.old v false ≡ false }
    ensures ring { IsRing 0 count slots.new marks.new }
    ensures nodes { window 0 count slots.new ≡ rising count }
{
    for node in 0..count {
        slots[node] = node as u8;
        marks[node] = true;
    }
}
