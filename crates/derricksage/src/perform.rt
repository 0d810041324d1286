//! What each command does. Nothing is printed or written before all that can be refused is right.
use crate::command;
use crate::command::{Command, HelpText};
use crate::error::Error;
use crate::known::Known;
use crate::play::play;
use crate::print::{RunLine, UnitListing};
use crate::tidy::tidy;
use crate::trace::trace;
use bytecode::read::read;
use bytecode::unit::Unit;
use listings::listing;
use listings::listing::{Listing, file_of};
use machine::run::run;
use std::rt::Files;
use std::{fs, io};

/// Does what the words after the program's name ask for.
pub fn perform<'a>(
    rt: &(impl Files + Input + Print + AllocGlobal),
    words: &'a [String],
) -> Result<(), Error<'a>> {
    match command::parse(rt.alloc(), words)? {
        Command::Help => {
            print!(rt; "{}", HelpText)?;
            Ok(())
        }
        Command::Asm { listing, file } => assemble(rt, listing, file),
        Command::Show { file } => show(rt, file),
        Command::Run {
            file,
            budget,
            room,
            inputs,
        } => run_once(rt, file, budget, room, inputs.as_slice()),
        Command::Tidy { file, out } => tidy(rt, file, out),
        Command::Play { script } => play(rt, script),
        Command::Trace { script } => trace(rt, script),
    }
}

/// Makes the unit file of a listing.
fn assemble<'a>(
    rt: &(impl Files + Print + AllocGlobal),
    listing: &'a str,
    file: &'a str,
) -> Result<(), Error<'a>> {
    let listing = read_listing(rt, listing)?;
    let bytes = file_of(rt.alloc(), &listing)?;
    in_file(file, fs::write(rt, file, bytes.as_slice()))?;
    println!(rt; "{} bytes", bytes.len())?;
    Ok(())
}

/// Prints the listing of a unit file with the facts at each place.
fn show<'a>(rt: &(impl Files + Print + AllocGlobal), file: &'a str) -> Result<(), Error<'a>> {
    let unit = read_unit(rt, file)?;
    let known = Known::of(file, &unit)?;
    let listing = UnitListing {
        unit: &unit,
        known: &known,
    };
    print!(rt; "{listing}")?;
    Ok(())
}

/// Runs a unit file, and prints how the run ended.
fn run_once<'a>(
    rt: &(impl Files + Print + AllocGlobal),
    file: &'a str,
    budget: u32,
    room: usize,
    inputs: &[i32],
) -> Result<(), Error<'a>> {
    let unit = read_unit(rt, file)?;
    let mut outputs = vec![in rt.alloc(); 0i32; room]?;
    let answer = run(&unit, inputs, outputs.as_mut_slice(), budget);
    outputs.truncate(answer.written);
    let line = RunLine {
        answer: &answer,
        outputs: outputs.as_slice(),
    };
    println!(rt; "{line}")?;
    Ok(())
}

/// What the system did with the file of this name.
pub fn in_file<T>(name: &str, done: io::Result<T>) -> Result<T, Error<'_>> {
    done.map_err(|error| Error::File { name, error })
}

/// The listing in the file of this name.
fn read_listing<'a>(rt: &(impl Files + AllocGlobal), name: &'a str) -> Result<Listing, Error<'a>> {
    let text = in_file(name, fs::read_to_string(rt, name))?;
    listing::parse(rt.alloc(), text.as_str()).map_err(|fault| Error::Listing { name, fault })
}

/// The unit in the file of this name.
fn read_unit<'a>(rt: &(impl Files + AllocGlobal), name: &'a str) -> Result<Unit, Error<'a>> {
    let bytes = in_file(name, fs::read(rt, name))?;
    read(bytes.as_slice()).map_err(|fault| Error::Refused { name, fault })
}
