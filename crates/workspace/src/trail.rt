//! What the open attempts have changed.
ghost use Rattle.std.specs.Prelude.{◌≡◌, ◌+◌, ◌<◌, ◌≤◌, [], ◌∷◌, ◌++◌, length, MatchOption};
ghost use Rattle.workspace.specs.Record.{Recorded};

use bytecode::instr::Instr;
use std::marker::Model;

/// One change of the code: its place, and the instruction that stood there.
#[derive(Clone, Copy)]
pub(crate) struct Change {
    pub(crate) place: usize,
    pub(crate) old: Instr,
}

/// The changes, and for each open attempt how many there were when it was opened.
#[derive(Drop)]
pub(crate) struct Trail {
    changes: [Change; 256],
    count: usize,
    marks: [usize; 8],
    depth: u8,
}

impl Model for Trail {
    ghost use Rattle.std.specs.Prelude.{◌≡◌, ◌≤◌, length, take};
    ghost use Rattle.facts.specs.Cells.{below};
    ghost use Rattle.workspace.specs.Record.{Recorded};

    ghost Value = { Recorded };

    ghost view = { λ r. record { changes = take r.count r.changes; marks = below 0 r.marks r.depth } };

    ghost invariant = { λ r. (r.count ≤ 256) × (r.depth ≤ 8) × (length r.changes ≡ 256) × (length r.marks ≡ 8) };
}

impl Trail {
    pub(crate) fn new() -> Trail
        ensures { result ≡ record { changes = []; marks = [] } }
    {
        Trail {
            changes: [Change {
                place: 0,
                old: Instr::Nop,
            }; 256],
            count: 0,
            marks: [0; 8],
            depth: 0,
        }
    }

    /// How many attempts are open.
    pub(crate) fn depth(&self) -> u8
        ensures depth { result ≡ length self.now.marks }
        ensures low { result ≤ 8 }
    {
        self.depth
    }

    /// Opens an attempt.
    pub(crate) fn open(&mut self)
        requires { length self.old.marks < 8 }
        ensures { self.new ≡ record { changes = self.old.changes; marks = length self.old.changes ∷ self.old.marks } }
    {
        self.marks[self.depth as usize] = self.count;
        self.depth += 1;
    }

    /// Closes the innermost attempt, and answers how many changes there were when it was opened.
    pub(crate) fn close(&mut self) -> usize
        requires { 0 < length self.old.marks }
        ensures marks { self.old.marks ≡ result ∷ self.new.marks }
        ensures changes { self.new.changes ≡ self.old.changes }
    {
        self.depth -= 1;
        self.marks[self.depth as usize]
    }

    /// Records a change.
    pub(crate) fn push(&mut self, change: Change)
        requires { length self.old.changes < 256 }
        ensures { self.new ≡ record { changes = self.old.changes ++ change ∷ []; marks = self.old.marks } }
    {
        self.changes[self.count] = change;
        self.count += 1;
    }

    /// Takes the last change, if there are more than `mark`.
    pub(crate) fn pop_past(&mut self, mark: usize) -> Option<Change>
        ensures { MatchOption result
            ((length self.old.changes ≤ mark) × (self.new ≡ self.old))
            (λ x. (self.old ≡ record { changes = self.new.changes ++ x ∷ []; marks = self.new.marks }) × (mark ≤ length self.new.changes)) }
    {
        if self.count <= mark {
            return None;
        }
        self.count -= 1;
        Some(self.changes[self.count])
    }

    /// Forgets the changes and the attempts.
    pub(crate) fn reset(&mut self)
        ensures { self.new ≡ record { changes = []; marks = [] } }
    {
        self.count = 0;
        self.depth = 0;
    }

    /// Forgets the changes.
    pub(crate) fn forget(&mut self)
        ensures { self.new ≡ record { changes = []; marks = self.old.marks } }
    {
        self.count = 0;
    }
}
