//! The words of the command line.
use crate::error::Error;
use std::alloc::Global;
use std::str::FromStr;

/// How many files are compared where no word says it.
const COUNT: u32 = 4000;

/// The seed where no word says it.
const SEED: u64 = 1;

/// What the program is asked to do.
#[derive(Clone, Copy)]
pub enum Task {
    /// To try the sample units.
    Samples,
    /// To try the sample units, and to compare so many files.
    All { count: u32, seed: u64 },
}

/// The task that the words after the program's name are.
pub fn parse(heap: Global, words: &[String]) -> Result<Task, Error> {
    match words {
        [] => Ok(Task::All {
            count: COUNT,
            seed: SEED,
        }),
        [word] if word.as_str() == "samples" => Ok(Task::Samples),
        [count] => Ok(Task::All {
            count: number_of(heap, "COUNT", count, "an unsigned 32-bit number")?,
            seed: SEED,
        }),
        [count, seed] => Ok(Task::All {
            count: number_of(heap, "COUNT", count, "an unsigned 32-bit number")?,
            seed: number_of(heap, "SEED", seed, "an unsigned 64-bit number")?,
        }),
        _ => Err(Error::WrongWords),
    }
}

/// The number that a word is. `name` and `range` say what it ought to be where it is none.
fn number_of<T: FromStr>(
    heap: Global,
    name: &'static str,
    word: &String,
    range: &'static str,
) -> Result<T, Error>
where
    T::Err: Drop,
{
    match word.parse() {
        Ok(number) => Ok(number),
        Err(_) => Err(Error::NotNumber {
            name,
            word: String::from_str(heap, word)?,
            range,
        }),
    }
}
