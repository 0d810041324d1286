//! Each policy through its bound, and two that a caller may write: one in memory that it borrows, and one over another.
ghost use Rattle.std.specs.Prelude.{◌≡◌, ◌≢◌, ℕ, ◌<◌, true, false, slice_index_or};

use crate::first_in::FirstIn;
use crate::highest::Highest;
use crate::policy::Policy;

// Marks its nodes in the caller's memory, and takes the lowest.
#[derive(Drop)]
struct Lowest<'a> {
    marks: &'a mut [bool; 128],
}

impl<'a> Policy for Lowest<'a> {
    ghost pending = { λ s v. slice_index_or s.marks.now v false };

    fn clear(&mut self) {
        *self.marks = [false; 128];
    }

    fn add(&mut self, node: usize) -> bool {
        if node >= 128 {
            return false;
        }
        mark(self.marks, node);
        true
    }

    fn take(&mut self) -> Option<usize> {
        let node = self.marks.iter().position(|mark| *mark)?;
        self.marks[node] = false;
        Some(node)
    }
}

fn mark(marks: &mut [bool; 128], node: usize)
    requires { node < 128 }
    ensures marked { slice_index_or marks.new node false ≡ true }
    ensures others { (v : ℕ) → v ≢ node → slice_index_or marks.new v false ≡ slice_index_or marks.old v false }
{
    marks[node] = true;
}

// Counts the takes of another policy.
#[derive(Drop)]
struct Counted<P> {
    policy: P,
    takes: u64,
}

impl<P: Policy> Policy for Counted<P> {
    ghost pending = { λ s. P.pending s.policy };

    fn clear(&mut self) {
        self.policy.clear();
    }

    fn add(&mut self, node: usize) -> bool {
        self.policy.add(node)
    }

    fn take(&mut self) -> Option<usize> {
        self.takes = self.takes.saturating_add(1);
        self.policy.take()
    }
}

// What each of the adds answers, and what each of the takes.
fn answers_of<P: Policy>(policy: &mut P) -> ([bool; 5], [Option<usize>; 4]) {
    policy.clear();
    let adds = [
        policy.add(3),
        policy.add(1),
        policy.add(2),
        policy.add(1),
        policy.add(128),
    ];
    (
        adds,
        [policy.take(), policy.take(), policy.take(), policy.take()],
    )
}

const ADDED: [bool; 5] = [true, true, true, true, false];

#[test]
fn first_in_takes_in_the_order_of_adding(rt: HostRuntime) {
    let (adds, takes) = answers_of(&mut FirstIn::new());
    assert_eq!(rt; adds, ADDED);
    assert_eq!(rt; takes, [Some(3), Some(1), Some(2), None]);
}

#[test]
fn highest_takes_from_the_top(rt: HostRuntime) {
    let (adds, takes) = answers_of(&mut Highest::new());
    assert_eq!(rt; adds, ADDED);
    assert_eq!(rt; takes, [Some(3), Some(2), Some(1), None]);
}

#[test]
fn lowest_takes_from_the_bottom_of_borrowed_memory(rt: HostRuntime) {
    let mut marks = [true; 128];
    let (adds, takes) = answers_of(&mut Lowest { marks: &mut marks });
    assert_eq!(rt; adds, ADDED);
    assert_eq!(rt; takes, [Some(1), Some(2), Some(3), None]);
    assert!(rt; marks.iter().all(|mark| !*mark));
}

#[test]
fn counted_takes_as_the_policy_below_it(rt: HostRuntime) {
    let mut counted = Counted {
        policy: FirstIn::new(),
        takes: 0,
    };
    let (adds, takes) = answers_of(&mut counted);
    assert_eq!(rt; adds, ADDED);
    assert_eq!(rt; takes, [Some(3), Some(1), Some(2), None]);
    assert_eq!(rt; counted.takes, 4);
}
