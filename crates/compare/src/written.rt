//! Compares the file that a held unit is written to.
use crate::sides::{fault_of, fault_of_load, routine_of};
use crate::tally::Tally;
use picks::pick::PickName;
use second::desk::Say;
use second::fault::Fault;
use second::file::written;
use second::routine::Routine;
use std::alloc::{AllocError, Global};
use workspace::workspace::Workspace;

/// What the caller's buffer holds before a write-out.
const MARK: u8 = 0x5a;

/// How many bytes more than the file has the buffer that is long enough.
const MORE: usize = 5;

/// Compares the bytes that a held unit is written to, the buffers, and what the bytes are loaded as.
pub fn compare_written(
    heap: Global,
    space: &Workspace,
    routine: &Routine,
    when: &str,
    tally: &mut Tally,
) -> Result<(), AllocError> {
    let bytes = written(heap, routine)?;
    let length = bytes.len();
    let (short, buffer) = write_out(heap, space, length.saturating_sub(1))?;
    let unchanged = (
        Err(Fault::plain(13)),
        marks(heap, length.saturating_sub(1))?,
    );
    tally.compare(
        heap,
        format_args!("{when}, write-out into a byte too few"),
        &(short, buffer),
        &unchanged,
    )?;
    let (long, buffer) = write_out(heap, space, length.saturating_add(MORE))?;
    let mut expected = bytes.clone()?;
    expected.extend_from_slice(marks(heap, MORE)?.as_slice())?;
    tally.compare(
        heap,
        format_args!("{when}, write-out"),
        &(long, buffer),
        &(Ok(length), expected),
    )?;
    compare_loaded(heap, bytes.as_slice(), routine, when, tally)?;
    tally.counts.written();
    Ok(())
}

/// So many marks.
fn marks(heap: Global, count: usize) -> Result<Vec<u8>, AllocError> {
    Ok(vec![in heap; MARK; count]?)
}

/// What writing into a buffer of marks answers, and the buffer after it.
fn write_out(
    heap: Global,
    space: &Workspace,
    room: usize,
) -> Result<(Result<usize, Fault>, Vec<u8>), AllocError> {
    let mut buffer = marks(heap, room)?;
    let answer = space.write_out(buffer.as_mut_slice()).map_err(fault_of);
    Ok((answer, buffer))
}

/// Compares what the bytes are loaded as in a new workspace.
fn compare_loaded(
    heap: Global,
    bytes: &[u8],
    routine: &Routine,
    when: &str,
    tally: &mut Tally,
) -> Result<(), AllocError> {
    let mut space = Workspace::new();
    let loaded = match space.load(bytes, &mut PickName::FirstIn.policies()) {
        Ok(()) => match space.unit() {
            Ok(unit) => Say::Unit(routine_of(heap, unit)?),
            Err(refusal) => Say::Refused(fault_of(refusal)),
        },
        Err(fault) => Say::Refused(fault_of_load(fault)),
    };
    tally.compare(
        heap,
        format_args!("{when}, written and loaded again"),
        &loaded,
        &Say::Unit(routine.clone()?),
    )
}
