//! A unit from a file's bytes.
ghost use Rattle.std.specs.Prelude.{◌≡◌, ◌<◌, replicate, MatchResult, OnErr};
ghost use Rattle.bytecode.specs.declared.instr.Instr.TheVariants.{Nop};
ghost use Rattle.bytecode.specs.Files.{Sized, Framed, FileGets, Decoded, LowestBad, CodeRead, Outcome, Only, WritesBack, reading};

use crate::fault::{FileFault, ReadFault, UnitFault};
use crate::instr::Instr;
use crate::parts::Parts;
use crate::site::Site;
use crate::sum::check_sum;
use crate::unit::Unit;
use crate::word::Word;

/// The number of instructions, where the file as a whole is right.
fn frame(file: &[u8]) -> Result<usize, FileFault>
    ensures { MatchResult result (Framed file.now) (FileGets file.now) }
{
    let len = file.len();
    if len < 12 || len > 774 || len % 6 != 0 {
        return Err(FileFault::Length);
    }
    let check = u16::from_be_bytes([file[len - 2], file[len - 1]]);
    if check != check_sum(&file[0..len - 2]) {
        return Err(FileFault::Check);
    }
    if file[0] != 1 || file[1] > 16 {
        return Err(FileFault::Head);
    }
    let count = (len - 6) / 6;
    if usize::from(u16::from_be_bytes([file[2], file[3]])) != count {
        return Err(FileFault::Count);
    }
    Ok(count)
}

/// The instruction that the six bytes of `part` are, where it may stand.
fn decode(part: [u8; 6], site: Site) -> Result<Instr, UnitFault>
    ensures { Decoded part site.locals site.place site.len result }
{
    match Instr::try_from(Word::from(part)) {
        Ok(instr) if instr.may_stand(site) => Ok(instr),
        _ => Err(UnitFault { place: site.place }),
    }
}

/// Reads the code of a file of `len` instructions into an array of NOP. What a refusal leaves there is not told.
// Into the caller's array: returned, it would be moved several times.
fn read_code(file: &[u8], len: usize, code: &mut [Instr; 128]) -> Result<(), UnitFault>
    requires sized { Sized file.now len }
    requires blank { code.old ≡ replicate 128 Nop }
    ensures { MatchResult result (λ _. CodeRead file.now len code.new) (λ fault. LowestBad file.now len fault.place) }
{
    let locals = file[1];
    for (place, part) in Parts::new(&file[4..]) {
        code[place] = decode(*part, Site { locals, place, len })?;
    }
    Ok(())
}

/// Turns a unit to the one that a file's bytes are. A refusal leaves it as it was.
pub fn read_into(file: &[u8], unit: &mut Unit) -> Result<(), ReadFault>
    ensures answer { Outcome file.now (reading result unit.new) }
    ensures only { Only file.now (reading result unit.new) }
    ensures back { WritesBack file.now (reading result unit.new) }
    ensures refused { OnErr result (unit.new ≡ unit.old) }
{
    let len = frame(file)?;
    let mut code = [Instr::Nop; 128];
    read_code(file, len, &mut code)?;
    unit.turn_to_code(file[1], len, &code);
    Ok(())
}

/// The unit that a file's bytes are.
// `read_into` is the faster one: an answered unit is moved several times.
pub fn read(file: &[u8]) -> Result<Unit, ReadFault>
    ensures answer { Outcome file.now result }
    ensures only { Only file.now result }
    ensures back { WritesBack file.now result }
{
    let mut unit = Unit::halt();
    read_into(file, &mut unit)?;
    Ok(unit)
}
