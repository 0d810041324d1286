//! Small units, loaded and changed.
use super::{Attempt, Workspace};
use crate::policies::Policies;
use crate::refusal::{LoadFault, Refusal};
use crate::shown::TakeCounts;
use bytecode::instr::Instr;
use dataflow::first_in::FirstIn;
use dataflow::highest::Highest;
use std::test::Fail;

/// LIT 2, LIT 3, ADD, STORE 0 and HALT over one local.
const SUM: [u8; 36] = [
    1, 1, 0, 5, 2, 0, 0, 0, 0, 2, 2, 0, 0, 0, 0, 3, 9, 0, 0, 0, 0, 0, 8, 0, 0, 0, 0, 0, 1, 0, 0, 0,
    0, 0, 0, 34,
];

/// POP and HALT: there is no value to drop.
const STUCK: [u8; 18] = [1, 0, 0, 2, 4, 0, 0, 0, 0, 0, 1, 0, 0, 0, 0, 0, 0, 8];

fn policies() -> Policies<FirstIn, Highest, FirstIn> {
    Policies {
        types: FirstIn::new(),
        constants: Highest::new(),
        lives: FirstIn::new(),
    }
}

/// The instruction at a place; none where there is no unit or no such place.
fn instr(space: &Workspace, place: usize) -> Option<Instr> {
    space.unit().ok()?.instructions().get(place).copied()
}

/// Whether the token of an attempt was taken.
fn is_spent(answer: Result<(), (Refusal, Attempt)>) -> bool {
    match answer {
        Ok(()) => true,
        Err((_, Attempt { depth: _ })) => false,
    }
}

#[test]
fn nothing_is_held_at_first(rt: HostRuntime) -> Result<(), Fail> {
    let mut space = Workspace::new();
    assert!(rt; space.take_counts() == Err(Refusal::NoUnit));
    assert!(rt; space.write_out(&mut [0; 36]) == Err(Refusal::NoUnit));
    assert!(rt; space.load(&STUCK[1..], &mut policies()).is_err());
    match space.load(&STUCK, &mut policies()) {
        Err(fault) => {
            assert_eq!(rt; fault.number(), 8);
            assert_eq!(rt; fault.place(), 0);
        }
        Ok(()) => panic!(rt; "loaded"),
    }
    assert!(rt; space.unit().is_err());
    Ok(())
}

#[test]
fn an_abandoned_attempt_leaves_the_unit(rt: HostRuntime) -> Result<(), Fail> {
    let mut space = Workspace::new();
    assert!(rt; space.load(&SUM, &mut policies()) == Ok(()));
    let outer = space.open().expect(&rt, "an attempt");
    let inner = space.open().expect(&rt, "an attempt");
    assert!(rt; space.load(&SUM, &mut policies()) == Err(LoadFault::AttemptOpen));
    assert!(rt; space.tidy(&outer, &mut policies()) == Err(Refusal::NotInnermost));
    // ADD becomes a literal that drops both numbers, and STORE becomes POP: no LOAD follows.
    assert!(rt; space.propose(&inner, 5, Instr::Pop, &mut policies()) == Err(Refusal::NoPlace));
    assert!(rt; space.propose(&inner, 2, Instr::Pop, &mut policies()) == Err(Refusal::NoRule));
    assert!(rt; space.propose(&inner, 3, Instr::Pop, &mut policies()) == Ok(()));
    assert!(rt; space.tidy(&inner, &mut policies()) == Ok(1));
    assert!(rt; instr(&space, 2) == Some(Instr::Lit { drops: 2, value: 5 }));
    assert!(rt; is_spent(space.keep(inner)));
    assert!(rt; instr(&space, 3) == Some(Instr::Pop));
    assert!(rt; space.write_out(&mut [0; 36]) == Err(Refusal::AttemptOpen));
    assert!(rt; is_spent(space.abandon(outer, &mut policies())));
    let mut buffer = [0; 36];
    assert!(rt; space.write_out(&mut buffer) == Ok(36));
    assert!(rt; buffer == SUM);
    Ok(())
}

#[test]
fn a_kept_attempt_is_written(rt: HostRuntime) -> Result<(), Fail> {
    let mut space = Workspace::new();
    assert!(rt; space.load(&SUM, &mut policies()) == Ok(()));
    let attempt = space.open().expect(&rt, "an attempt");
    assert!(rt; space.tidy(&attempt, &mut policies()) == Ok(2));
    assert!(rt; is_spent(space.keep(attempt)));
    assert!(rt; space.write_out(&mut [0; 35]) == Err(Refusal::TooShort));
    let mut buffer = [0; 36];
    assert!(rt; space.write_out(&mut buffer) == Ok(36));
    let mut other = Workspace::new();
    assert!(rt; other.load(&buffer, &mut policies()) == Ok(()));
    assert!(rt; instr(&other, 2) == Some(Instr::Lit { drops: 2, value: 5 }));
    assert!(rt;
        other.take_counts()
            == Ok(TakeCounts {
                types: 5,
                constants: 9,
                lives: 5
            })
    );
    Ok(())
}
