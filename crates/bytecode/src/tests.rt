//! Sample files.
use crate::instr::Instr;
use crate::read::read;
use crate::write::write;
use std::test::Fail;

/// The unit of a single HALT.
const HALT: [u8; 12] = [1, 0, 0, 1, 1, 0, 0, 0, 0, 0, 0, 3];

/// The refusal number of a file and the place that it names; 0 and 0 where it is accepted.
// Numbers, since they are what is told of a refusal, and the tests keep them.
fn judged(file: &[u8]) -> (u8, usize) {
    match read(file) {
        Ok(_) => (0, 0),
        Err(fault) => (fault.number(), fault.place()),
    }
}

#[test]
fn a_single_halt_is_read_and_written(rt: HostRuntime) -> Result<(), Fail> {
    let unit = read(&HALT)?;
    assert_eq!(rt; unit.locals, 0);
    assert_eq!(rt; unit.len, 1);
    let first = unit.code[0];
    assert!(rt; first == Instr::Halt);
    let mut buffer = [9; 14];
    assert_eq!(rt; write(&unit, &mut buffer)?, 12);
    assert!(rt; buffer == [1, 0, 0, 1, 1, 0, 0, 0, 0, 0, 0, 3, 9, 9]);
    Ok(())
}

#[test]
fn the_first_failing_test_is_named(rt: HostRuntime) {
    assert_eq!(rt; judged(&[]), (3, 0));
    assert_eq!(rt; judged(&HALT[0..11]), (3, 0));
    assert_eq!(rt; judged(&[1, 0, 0, 1, 1, 0, 0, 0, 0, 0, 0, 4]), (4, 0));
    assert_eq!(rt; judged(&[2, 0, 0, 1, 1, 0, 0, 0, 0, 0, 0, 4]), (5, 0));
    assert_eq!(rt; judged(&[1, 17, 0, 1, 1, 0, 0, 0, 0, 0, 0, 20]), (5, 0));
    assert_eq!(rt; judged(&[1, 0, 0, 2, 1, 0, 0, 0, 0, 0, 0, 4]), (6, 0));
    assert_eq!(rt; judged(&[1, 0, 0, 1, 16, 0, 0, 0, 0, 1, 0, 19]), (7, 0));
    assert_eq!(rt; judged(&[1, 0, 0, 1, 16, 0, 0, 0, 0, 0, 0, 18]), (0, 0));
}

#[test]
fn a_short_buffer_is_refused_and_unchanged(rt: HostRuntime) -> Result<(), Fail> {
    let unit = read(&HALT)?;
    let mut buffer = [9; 11];
    assert!(rt; write(&unit, &mut buffer).is_err());
    assert!(rt; buffer == [9; 11]);
    Ok(())
}
