//! Each rule once, which comes first, and what is left alone.
use crate::change::{Change, first_change};
use crate::rule::Rule;
use crate::yields::{lowest_rule, some_rule_yields, yielded};
use analyses::constants::Constants;
use analyses::graph::Graph;
use analyses::live::Live;
use analyses::solution::solution;
use bytecode::instr::Instr;
use bytecode::read::read;
use dataflow::first_in::FirstIn;
use facts::cell::ConstCell;
use facts::constants::carry_constants;
use facts::frame::Frame;
use facts::live::{LiveSet, carry_live};
use std::test::Fail;

/// LIT 0 6, LIT 0 7, ADD, STORE 0 and HALT.
const SUM: [u8; 36] = [
    1, 1, 0, 5, 2, 0, 0, 0, 0, 6, 2, 0, 0, 0, 0, 7, 9, 0, 0, 0, 0, 0, 8, 0, 0, 0, 0, 0, 1, 0, 0, 0,
    0, 0, 0, 42,
];

/// A single HALT.
const HALT: [u8; 12] = [1, 0, 0, 1, 1, 0, 0, 0, 0, 0, 0, 3];

/// What is known after the instructions, one after the other from the start.
fn after(code: &[Instr]) -> Frame<ConstCell> {
    let mut frame = Frame::entry();
    for instr in code {
        carry_constants(*instr, false, &mut frame);
    }
    frame
}

fn number(value: i32) -> Instr {
    Instr::Lit { drops: 0, value }
}

fn flag(value: bool) -> Instr {
    Instr::LitFlag { drops: 0, value }
}

#[test]
fn an_unreached_instruction_becomes_halt(rt: HostRuntime) {
    let none = LiveSet::new();
    assert!(rt; yielded(Rule::Unreached, Instr::Add, &Frame::Unreached, none) == Some(Instr::Halt));
    assert!(rt; yielded(Rule::Unreached, Instr::Halt, &Frame::Unreached, none) == None);
    assert!(rt; yielded(Rule::Unreached, Instr::Add, &Frame::Clash, none) == None);
    // Before the rule that drops a dead STORE.
    assert!(rt;
        lowest_rule(Instr::Store(3), &Frame::Unreached, none)
            == Some((Rule::Unreached, Instr::Halt))
    );
}

#[test]
fn a_known_result_becomes_a_literal(rt: HostRuntime) {
    let none = LiveSet::new();
    let known = after(&[number(7), number(-2)]);
    let quotient = Instr::Lit {
        drops: 2,
        value: -3,
    };
    assert!(rt; yielded(Rule::Literal, Instr::Div, &known, none) == Some(quotient));
    let less = Instr::LitFlag {
        drops: 2,
        value: false,
    };
    assert!(rt; yielded(Rule::Literal, Instr::Lt, &known, none) == Some(less));
    assert!(rt; yielded(Rule::Literal, Instr::Dup, &known, none) == Some(number(-2)));
    let opposite = Instr::LitFlag {
        drops: 1,
        value: true,
    };
    assert!(rt; yielded(Rule::Literal, Instr::Not, &after(&[flag(false)]), none) == Some(opposite));
    let stored = after(&[number(5), Instr::Store(3)]);
    assert!(rt; yielded(Rule::Literal, Instr::Load(3), &stored, none) == Some(number(5)));
    assert!(rt; yielded(Rule::Literal, Instr::Load(4), &stored, none) == None);
    assert!(rt; yielded(Rule::Literal, number(5), &stored, none) == None);
}

#[test]
fn a_division_by_a_known_zero_stays(rt: HostRuntime) {
    let none = LiveSet::new();
    assert!(rt; lowest_rule(Instr::Div, &after(&[number(7), number(0)]), none) == None);
    assert!(rt; lowest_rule(Instr::Div, &after(&[Instr::In, number(0)]), none) == None);
}

#[test]
fn a_branch_on_a_known_flag_is_decided(rt: HostRuntime) {
    let none = LiveSet::new();
    let by = Instr::Jf(-4);
    assert!(rt; lowest_rule(by, &after(&[flag(true)]), none) == Some((Rule::Branch, Instr::Pop)));
    assert!(rt;
        lowest_rule(by, &after(&[flag(false)]), none) == Some((Rule::Branch, Instr::DropJmp(-4)))
    );
    assert!(rt; lowest_rule(by, &after(&[Instr::In]), none) == None);
    assert!(rt; some_rule_yields(by, &after(&[flag(true)]), none, Instr::Pop));
    assert!(rt; !some_rule_yields(by, &after(&[flag(false)]), none, Instr::Pop));
}

#[test]
fn a_dead_store_becomes_pop(rt: HostRuntime) {
    let known = after(&[Instr::In]);
    let live = carry_live(Instr::Load(3), LiveSet::new());
    assert!(rt; lowest_rule(Instr::Store(2), &known, live) == Some((Rule::DeadStore, Instr::Pop)));
    assert!(rt; lowest_rule(Instr::Store(3), &known, live) == None);
}

/// The first change of the unit of a file, by the least facts.
fn first_of(file: &[u8]) -> Result<Option<Change>, Fail> {
    let graph = Graph::new(&read(file)?);
    let mut known = [Frame::Unreached; 128];
    solution::<Constants, FirstIn>(&graph, &mut FirstIn::new(), &mut known);
    let mut live = [LiveSet::new(); 128];
    solution::<Live, FirstIn>(&graph, &mut FirstIn::new(), &mut live);
    Ok(first_change(graph.unit(), &known, &live))
}

#[test]
fn the_lowest_place_is_changed_first(rt: HostRuntime) -> Result<(), Fail> {
    let sum = Instr::Lit {
        drops: 2,
        value: 13,
    };
    let change = Change {
        place: 2,
        rule: Rule::Literal,
        instr: sum,
    };
    assert!(rt; first_of(&SUM)? == Some(change));
    assert!(rt; first_of(&HALT)? == None);
    Ok(())
}
