//! Solutions found by hand: which nodes an entry reaches.
ghost use Rattle.std.specs.Prelude.{◌≡◌, ℕ, Bool, true, false, cond, ◌||◌, ◌==◌};
ghost use Rattle.std.proofs.Common.{rules};

use crate::analysis::Analysis;
use crate::fault::SliceTooShort;
use crate::first_in::FirstIn;
use crate::highest::Highest;
use crate::policy::Policy;
use crate::solve::solve;
use std::test::Fail;

/// The nodes that an entry, the code, reaches by three edges 0 → 1 → 2 → 1; node 3 stands apart.
struct Reach;

impl Analysis for Reach {
    type Code = usize;

    type Fact = bool;

    ghost valid = { λ entry fact. Unit {0} };

    ghost meaning = { λ entry. record {
      nodes = 4;
      edges = 3;
      from = λ i. cond (i == 0) 0 (cond (i == 1) 1 2);
      to = λ i. cond (i == 0) 1 (cond (i == 1) 2 1);
      seed = λ v. v == entry;
      least = false;
      join = λ a b. a || b;
      carry = λ i a. a;
      rank = λ a. cond a 1 0;
      height = 1;
    } };

    ghost lawful = { Prim.search rules };

    fn nodes(_code: &usize) -> usize {
        4
    }

    fn edge_count(_code: &usize) -> usize {
        3
    }

    fn edge(_code: &usize, edge: usize) -> (usize, usize) {
        match edge {
            0 => (0, 1),
            1 => (1, 2),
            _ => (2, 1),
        }
    }

    fn seed(code: &usize, node: usize) -> bool {
        node == *code
    }

    fn least(_code: &usize) -> bool {
        false
    }

    fn join(_code: &usize, into: &mut bool, fact: &bool) -> bool {
        let changed = *fact && !*into;
        *into = *into || *fact;
        changed
    }

    fn same(_code: &usize, a: &bool, b: &bool) -> bool {
        a == b
    }

    fn carry(_code: &usize, _edge: usize, _fact: &mut bool) {}
}

/// The facts and the take counts of three entries, one after the other in one slice, with an entry past the nodes.
fn reached<P: Policy>(
    policy: &mut P,
    facts: &mut [bool; 5],
) -> Result<[([bool; 5], usize); 3], SliceTooShort> {
    let from_0 = solve::<Reach, P>(&0, policy, facts)?;
    let first = (*facts, from_0);
    let from_2 = solve::<Reach, P>(&2, policy, facts)?;
    let second = (*facts, from_2);
    let from_3 = solve::<Reach, P>(&3, policy, facts)?;
    Ok([first, second, (*facts, from_3)])
}

#[test]
fn first_in_reaches_in_rising_order(rt: HostRuntime) -> Result<(), Fail> {
    let mut policy = FirstIn::new();
    policy.add(6);
    let [first, second, third] = reached(&mut policy, &mut [true; 5])?;
    assert_eq!(rt; first, ([true, true, true, false, true], 4));
    assert_eq!(rt; second, ([false, true, true, false, true], 5));
    assert_eq!(rt; third, ([false, false, false, true, true], 4));
    assert!(rt; policy.take().is_none());
    Ok(())
}

#[test]
fn highest_reaches_the_same_from_the_top(rt: HostRuntime) -> Result<(), Fail> {
    let mut policy = Highest::new();
    let [first, second, third] = reached(&mut policy, &mut [true; 5])?;
    assert_eq!(rt; first, ([true, true, true, false, true], 6));
    assert_eq!(rt; second, ([false, true, true, false, true], 4));
    assert_eq!(rt; third, ([false, false, false, true, true], 4));
    assert!(rt; policy.take().is_none());
    Ok(())
}

#[test]
fn a_short_slice_is_refused(rt: HostRuntime) {
    let mut policy = FirstIn::new();
    policy.add(6);
    let mut facts = [true; 3];
    let answer = solve::<Reach, _>(&0, &mut policy, &mut facts);
    assert!(rt; answer.is_err_and(|fault| fault.number() == 13));
    assert!(rt; facts == [true; 3]);
    assert!(rt; policy.take() == Some(6));
    assert!(rt; policy.take().is_none());
}
