//! Tidies a unit file in one attempt.
use crate::answer::Answer;
use crate::denied::Denied;
use crate::error::Error;
use crate::perform::in_file;
use std::alloc::Global;
use std::fs;
use std::rt::Files;
use tokens::pick::PickName;
use tokens::side::Side;
use tokens::spend::Spend;
use tokens::table::Table;

/// What the steps answered, and the file of the tidied unit.
#[derive(Drop)]
struct Tidied {
    depth: u8,
    changes: usize,
    bytes: Vec<u8>,
}

/// Loads a unit file, tidies it in an attempt that is kept, and writes it to another; prints each step.
pub fn tidy<'a>(
    rt: &(impl Files + Print + AllocGlobal),
    file: &'a str,
    out: &'a str,
) -> Result<(), Error<'a>> {
    let bytes = in_file(file, fs::read(rt, file))?;
    let tidied = tidy_bytes(rt.alloc(), file, bytes.as_slice())?;
    in_file(out, fs::write(rt, out, tidied.bytes.as_slice()))?;
    println!(rt; "{}", Answer::Loaded)?;
    println!(rt; "{}", Answer::Opened(tidied.depth))?;
    println!(rt; "{}", Answer::Tidied(tidied.changes))?;
    println!(rt; "{}", Answer::Kept)?;
    println!(rt; "wrote {}", Answer::Bytes(tidied.bytes.len()))?;
    Ok(())
}

/// The tidied unit of the file `name`, which has these bytes.
fn tidy_bytes<'a>(heap: Global, name: &'a str, file: &[u8]) -> Result<Tidied, Error<'a>> {
    let mut table = Table::new(heap);
    let tidied = steps(heap, &mut table, file);
    table.clear(&mut PickName::FirstIn.policies());
    tidied.map_err(|denied| Error::Denied { name, denied })
}

fn steps(heap: Global, table: &mut Table, file: &[u8]) -> Result<Tidied, Denied> {
    let side = Side::Zero;
    let mut picks = PickName::FirstIn.policies();
    table.load(side, file, &mut picks)?;
    let depth = table.open(side)?;
    let changes = table.tidy(side, depth, &mut picks)?;
    table.spend(side, depth, Spend::Keep, &mut picks)?;
    // The file is as long as the one that was loaded.
    let mut bytes = vec![in heap; 0u8; file.len()]?;
    table.space(side).write_out(bytes.as_mut_slice())?;
    Ok(Tidied {
        depth,
        changes,
        bytes,
    })
}
