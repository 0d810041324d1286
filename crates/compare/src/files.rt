//! Compares so many generated files.
use crate::error::Error;
use crate::histories::compare_history;
use crate::tally::Tally;
use crate::units::compare_file;
use draws::random::Random;
use generate::{Made, file};
use std::fmt;

/// Bytes as hex digits.
#[derive(Clone, Copy)]
struct Hex<'a>(&'a [u8]);

/// Each byte with a space before it.
impl fmt::Display for Hex<'_> {
    fn fmt<W: fmt::Write>(&self, f: &mut fmt::Formatter<W>) -> fmt::Result {
        for byte in self.0 {
            write!(f, " {byte:02x}")?;
        }
        Ok(())
    }
}

/// Compares so many files, and prints each difference, what occurred, and how many differences there are.
pub fn compare_files(rt: &(impl Print + AllocGlobal), count: u32, seed: u64) -> Result<u64, Error> {
    let heap = rt.alloc();
    let mut source = Random::new(seed);
    let mut tally = Tally::new(heap);
    let mut differences = 0u64;
    for number in 0..count {
        let mut random = stream(&mut source);
        let made = file(heap, &mut random)?;
        compare_file(heap, &mut random, &made, &mut tally)?;
        compare_history(heap, &mut random, made.bytes.as_slice(), &mut tally)?;
        differences = differences.saturating_add(tally.found.len() as u64);
        print_found(rt, seed, number, &made, &tally)?;
        tally.found.clear();
    }
    println!(rt; "{}", tally.counts)?;
    match differences {
        0 => println!(rt; "no difference")?,
        _ => println!(rt; "{differences} differences")?,
    }
    Ok(differences)
}

/// The stream of one file, so that no file depends on how much was asked of the others.
fn stream(source: &mut Random) -> Random {
    let high = u64::from(source.below(u32::MAX));
    let low = u64::from(source.below(u32::MAX));
    Random::new(high << 32 | low)
}

/// Prints the differences that one file shows.
fn print_found(
    rt: &(impl Print + AllocGlobal),
    seed: u64,
    number: u32,
    made: &Made,
    tally: &Tally,
) -> Result<(), Error> {
    if tally.found.is_empty() {
        return Ok(());
    }
    println!(rt;
        "seed {seed} file {number}, {:?}:{}",
        made.sort,
        Hex(made.bytes.as_slice())
    )?;
    for difference in tally.found.iter() {
        println!(rt; "{difference}")?;
    }
    Ok(())
}
