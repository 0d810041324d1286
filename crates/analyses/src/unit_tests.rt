//! Small units: what is known of them, how many takes it takes to know it, and what the verifier says.
use crate::constants::Constants;
use crate::graph::Graph;
use crate::live::Live;
use crate::solution::solution;
use crate::verify::{VerifierFault, verify};
use bytecode::instr::Instr;
use bytecode::read::read;
use bytecode::unit::Unit;
use dataflow::first_in::FirstIn;
use dataflow::highest::Highest;
use dataflow::policy::Policy;
use facts::cell::{Cell, ConstCell, TypeCell};
use facts::constants::carry_constants;
use facts::frame::Frame;
use facts::live::LiveSet;
use facts::reason::Reason;
use facts::types::carry_types;
use std::test::Fail;

/// One local: LIT 0 5, STORE 0, LOAD 0, OUT and HALT.
const SAMPLE: [u8; 36] = [
    1, 1, 0, 5, 2, 0, 0, 0, 0, 5, 8, 0, 0, 0, 0, 0, 7, 0, 0, 0, 0, 0, 20, 0, 0, 0, 0, 0, 1, 0, 0,
    0, 0, 0, 0, 50,
];

/// Eight times LIT 0 0, and HALT.
const EIGHT: [u8; 60] = [
    1, 0, 0, 9, 2, 0, 0, 0, 0, 0, 2, 0, 0, 0, 0, 0, 2, 0, 0, 0, 0, 0, 2, 0, 0, 0, 0, 0, 2, 0, 0, 0,
    0, 0, 2, 0, 0, 0, 0, 0, 2, 0, 0, 0, 0, 0, 2, 0, 0, 0, 0, 0, 1, 0, 0, 0, 0, 0, 0, 27,
];

/// Nine times LIT 0 0, and HALT.
const NINE: [u8; 66] = [
    1, 0, 0, 10, 2, 0, 0, 0, 0, 0, 2, 0, 0, 0, 0, 0, 2, 0, 0, 0, 0, 0, 2, 0, 0, 0, 0, 0, 2, 0, 0,
    0, 0, 0, 2, 0, 0, 0, 0, 0, 2, 0, 0, 0, 0, 0, 2, 0, 0, 0, 0, 0, 2, 0, 0, 0, 0, 0, 1, 0, 0, 0, 0,
    0, 0, 30,
];

/// What the verifier says of the unit, and how many takes it took.
fn verified<P: Policy>(unit: &Unit, policy: &mut P) -> Result<usize, VerifierFault> {
    verify(&Graph::new(unit), policy, &mut [Frame::Unreached; 128])
}

/// How many takes the types, the constants and the live locals of the unit take.
fn takes<P: Policy>(unit: &Unit, policy: &mut P) -> Result<(usize, usize, usize), VerifierFault> {
    let graph = Graph::new(unit);
    let types = verified(unit, policy)?;
    let constants = solution::<Constants, P>(&graph, policy, &mut [Frame::Unreached; 128]);
    let live = solution::<Live, P>(&graph, policy, &mut [LiveSet::new(); 128]);
    Ok((types, constants, live))
}

/// The cell at the bottom of a stack of this height; none where the frame is another.
fn bottom<C: Cell>(frame: &Frame<C>, height: usize) -> Option<C> {
    match frame {
        Frame::At(cells) if cells.height() == height => Some(cells.stack()[0]),
        _ => None,
    }
}

#[test]
fn takes_are_those_of_the_policy(rt: HostRuntime) -> Result<(), Fail> {
    let unit = read(&SAMPLE)?;
    assert!(rt; takes(&unit, &mut FirstIn::new()) == Ok((5, 5, 6)));
    assert!(rt; takes(&unit, &mut Highest::new()) == Ok((9, 9, 5)));
    Ok(())
}

#[test]
fn a_ninth_value_is_refused(rt: HostRuntime) -> Result<(), Fail> {
    assert!(rt; verified(&read(&EIGHT)?, &mut FirstIn::new()) == Ok(9));
    let refused = Err(VerifierFault {
        place: 8,
        reason: Reason::TooMany,
    });
    assert!(rt; verified(&read(&NINE)?, &mut FirstIn::new()) == refused);
    Ok(())
}

#[test]
fn a_sum_of_a_flag_varies(rt: HostRuntime) {
    let flag = Instr::LitFlag {
        drops: 0,
        value: true,
    };
    let three = Instr::Lit { drops: 0, value: 3 };
    let mut frame = Frame::entry();
    carry_constants(flag, false, &mut frame);
    assert!(rt; bottom(&frame, 1) == Some(ConstCell::Flag(true)));
    carry_constants(three, false, &mut frame);
    carry_constants(Instr::Add, false, &mut frame);
    assert!(rt; bottom(&frame, 1) == Some(ConstCell::Varies));
}

#[test]
fn unlike_frames_are_joined(rt: HostRuntime) {
    let flag = Instr::LitFlag {
        drops: 0,
        value: true,
    };
    let mut number = Frame::entry();
    carry_types(Instr::In, &mut number);
    let mut other = Frame::entry();
    carry_types(flag, &mut other);
    let mut two = number;
    carry_types(Instr::In, &mut two);
    assert!(rt; bottom(&number, 1) == Some(TypeCell::Num));
    assert!(rt; bottom(&other, 1) == Some(TypeCell::Flag));
    assert!(rt; other.join(&number));
    assert!(rt; bottom(&other, 1) == Some(TypeCell::Unusable));
    assert!(rt; !other.join(&number));
    assert!(rt; two.join(&number));
    assert!(rt; two.same(&Frame::Clash));
}
