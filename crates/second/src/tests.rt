//! Samples whose answers are known from elsewhere.
use crate::desk::{Ask, Desk, Say};
use crate::facts::{Guess, Kind, Shape, facts_of};
use crate::fault::{Fault, Layer};
use crate::file::written;
use crate::judge::judged;
use crate::machine::run;
use crate::operation::{ADD, DIV, EQ, HALT, IN, JF, JMP, LIT, LITF, LOAD, OUT, POP, STORE};
use crate::routine::{Routine, Row};
use crate::rules::tidied;
use std::alloc::{AllocError, Global};
use std::test::Fail;

fn row(operation: u8, argument: i32) -> Row {
    Row {
        operation,
        drops: 0,
        argument,
    }
}

fn routine(heap: Global, locals: u8, rows: &[Row]) -> Result<Routine, AllocError> {
    Ok(Routine {
        locals,
        rows: Vec::from_slice(heap, rows)?,
    })
}

/// Stores 5, loads it again and puts it out.
fn through_a_local(heap: Global) -> Result<Routine, AllocError> {
    routine(
        heap,
        1,
        &[
            row(LIT, 5),
            row(STORE, 0),
            row(LOAD, 0),
            row(OUT, 0),
            row(HALT, 0),
        ],
    )
}

/// What a load says of the file of a routine.
fn verdict(heap: Global, routine: &Routine) -> Result<Option<Fault>, AllocError> {
    Ok(judged(heap, written(heap, routine)?.as_slice())?.err())
}

#[test]
fn a_file_is_written_and_read(rt: HostRuntime) -> Result<(), Fail> {
    let heap = rt.alloc();
    let file = [1, 0, 0, 1, 1, 0, 0, 0, 0, 0, 0, 3];
    let halt = routine(heap, 0, &[row(HALT, 0)])?;
    assert!(rt; written(heap, &halt)?.as_slice() == file.as_slice());
    assert!(rt; judged(heap, &file)? == Ok(halt));
    assert!(rt; judged(heap, &[])? == Err(Fault::at(Layer::File, 3, 0, 0)));
    for (byte, number) in [(11usize, 4u8), (0, 4)] {
        let mut damaged = file;
        damaged[byte] = 9;
        assert!(rt; judged(heap, &damaged)? == Err(Fault::at(Layer::File, number, 0, 0)));
    }
    Ok(())
}

#[test]
fn as_many_rows_as_a_unit_may_have(rt: HostRuntime) -> Result<(), Fail> {
    let heap = rt.alloc();
    let most = routine(heap, 0, &[row(HALT, 0); 128])?;
    assert!(rt; verdict(heap, &most)? == None);
    let more = routine(heap, 0, &[row(HALT, 0); 129])?;
    assert!(rt; verdict(heap, &more)? == Some(Fault::at(Layer::File, 3, 0, 0)));
    Ok(())
}

#[test]
fn arithmetic_wraps_and_division_truncates(rt: HostRuntime) -> Result<(), Fail> {
    let heap = rt.alloc();
    for (operation, a, b, c) in [
        (DIV, 7, -2, -3),
        (DIV, i32::MIN, -1, i32::MIN),
        (ADD, i32::MAX, 1, i32::MIN),
    ] {
        let rows = [
            row(LIT, a),
            row(LIT, b),
            row(operation, 0),
            row(OUT, 0),
            row(HALT, 0),
        ];
        let told = run(heap, &routine(heap, 0, &rows)?, &[], 1, 9)?;
        assert!(rt; told.ending == 1 && told.place == 4 && told.steps == 4);
        assert!(rt; told.outputs.as_slice() == [c].as_slice());
    }
    Ok(())
}

#[test]
fn what_does_not_fit_is_refused(rt: HostRuntime) -> Result<(), Fail> {
    let heap = rt.alloc();
    let back = routine(heap, 0, &[row(JMP, -1)])?;
    assert!(rt; verdict(heap, &back)? == Some(Fault::at(Layer::Unit, 7, 0, 0)));
    let still = routine(heap, 0, &[row(JMP, 0)])?;
    assert!(rt; verdict(heap, &still)? == None);
    let told = run(heap, &still, &[], 0, 1000)?;
    assert!(rt; told.ending == 0 && told.steps == 1000);
    let mut tall = [row(LIT, 0); 10];
    tall[9] = row(HALT, 0);
    let most = routine(heap, 0, &tall[1..])?;
    assert!(rt; verdict(heap, &most)? == None);
    let more = routine(heap, 0, &tall)?;
    assert!(rt; verdict(heap, &more)? == Some(Fault::at(Layer::Verifier, 8, 8, 2)));
    let uneven = routine(
        heap,
        0,
        &[row(LITF, 1), row(JF, 2), row(LIT, 0), row(HALT, 0)],
    )?;
    assert!(rt; verdict(heap, &uneven)? == Some(Fault::at(Layer::Verifier, 8, 3, 4)));
    Ok(())
}

#[test]
fn unlike_cells_join(rt: HostRuntime) -> Result<(), Fail> {
    let heap = rt.alloc();
    let rows = [
        row(IN, 0),
        row(LIT, 0),
        row(EQ, 0),
        row(JF, 3),
        row(LIT, 3),
        row(JMP, 2),
        row(LITF, 1),
        row(LIT, 3),
        row(ADD, 0),
        row(HALT, 0),
    ];
    let facts = facts_of(heap, &routine(heap, 0, &rows)?)?;
    assert!(rt; facts.kinds.get(7).and_then(top) == Some(Kind::Unusable));
    assert!(rt; facts.guesses.get(7).and_then(top) == Some(Guess::Anything));
    assert!(rt; facts.guesses.get(9).and_then(top) == Some(Guess::Anything));
    assert!(rt; facts.kinds.get(9) == Some(&Shape::Mixed));
    Ok(())
}

/// The cell on top of the stack.
fn top<C: Copy>(shape: &Shape<C>) -> Option<C> {
    match shape {
        Shape::At { stack, .. } => stack.last().copied(),
        _ => None,
    }
}

#[test]
fn tidying_makes_a_known_load_a_literal(rt: HostRuntime) -> Result<(), Fail> {
    let heap = rt.alloc();
    let (tidy, changes) = tidied(heap, &through_a_local(heap)?)?;
    let rows = [
        row(LIT, 5),
        row(POP, 0),
        row(LIT, 5),
        row(OUT, 0),
        row(HALT, 0),
    ];
    assert!(rt; tidy.rows.as_slice() == rows.as_slice());
    assert_eq!(rt; changes, 2);
    Ok(())
}

#[test]
fn an_abandoned_attempt_leaves_no_trace(rt: HostRuntime) -> Result<(), Fail> {
    let heap = rt.alloc();
    let unit = through_a_local(heap)?;
    let mut desk = Desk::new(heap);
    assert!(rt; desk.ask(heap, &Ask::Open)? == Say::Refused(Fault::plain(2)));
    assert!(rt; desk.ask(heap, &Ask::Load(written(heap, &unit)?))? == Say::Loaded);
    assert!(rt; desk.ask(heap, &Ask::Tidy { depth: 0 })? == Say::Refused(Fault::plain(10)));
    assert!(rt; desk.ask(heap, &Ask::Open)? == Say::Opened(1));
    assert!(rt; desk.ask(heap, &Ask::WriteOut { room: 0 })? == Say::Refused(Fault::plain(1)));
    assert!(rt; desk.ask(heap, &Ask::Tidy { depth: 1 })? == Say::Tidied(2));
    assert!(rt; desk.ask(heap, &Ask::Abandon { depth: 1 })? == Say::Abandoned);
    assert!(rt; desk.ask(heap, &Ask::Unit)? == Say::Unit(unit));
    assert!(rt; desk.ask(heap, &Ask::WriteOut { room: 35 })? == Say::Refused(Fault::plain(13)));
    Ok(())
}
