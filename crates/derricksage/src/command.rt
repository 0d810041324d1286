//! The words of the command line.
use crate::error::Error;
use listings::number::InRange;
use std::alloc::Global;
use std::fmt;

/// What the program is asked to do.
#[derive(Drop)]
pub enum Command<'a> {
    Help,
    /// A listing to a unit file.
    Asm {
        listing: &'a str,
        file: &'a str,
    },
    /// The listing of a unit file, with the facts at each place.
    Show {
        file: &'a str,
    },
    /// One run of a unit file.
    Run {
        file: &'a str,
        budget: u32,
        room: usize,
        inputs: Vec<i32>,
    },
    /// A unit file without what can be folded or left out.
    Tidy {
        file: &'a str,
        out: &'a str,
    },
    /// The calls of a script, from a file or else from standard input.
    Play {
        script: Option<&'a str>,
    },
    /// Whether the attempts that a script abandons leave a trace.
    Trace {
        script: Option<&'a str>,
    },
}

/// How a command is written, and what it does.
#[derive(Clone, Copy, Debug)]
pub struct Usage {
    pub name: &'static str,
    /// The name with the operands.
    pub words: &'static str,
    pub purpose: &'static str,
}

static USAGES: [Usage; 7] = [
    Usage {
        name: "asm",
        words: "asm LISTING FILE",
        purpose: "a listing to a unit file",
    },
    Usage {
        name: "show",
        words: "show FILE",
        purpose: "the listing of a unit file, with the facts at each place",
    },
    Usage {
        name: "run",
        words: "run FILE BUDGET ROOM [INPUT ..]",
        purpose: "one run of a unit file",
    },
    Usage {
        name: "tidy",
        words: "tidy FILE OUT",
        purpose: "a unit file, folded and without dead stores, as another",
    },
    Usage {
        name: "play",
        words: "play [SCRIPT]",
        purpose: "the calls of a script, from the file or from standard input",
    },
    Usage {
        name: "trace",
        words: "trace [SCRIPT]",
        purpose: "whether the attempts that a script abandons leave a trace",
    },
    Usage {
        name: "help",
        words: "help",
        purpose: "this help",
    },
];

/// One line for each command.
#[derive(Clone, Copy)]
pub struct HelpText;

impl fmt::Display for HelpText {
    fn fmt<W: fmt::Write>(&self, f: &mut fmt::Formatter<W>) -> fmt::Result {
        for usage in &USAGES {
            writeln!(f, "derricksage {:<33} {}", usage.words, usage.purpose)?;
        }
        Ok(())
    }
}

/// The command that the words after the program's name are.
pub fn parse(heap: Global, words: &[String]) -> Result<Command<'_>, Error<'_>> {
    let [name, operands @ ..] = words else {
        return Ok(Command::Help);
    };
    match (name.as_str(), operands) {
        ("help", []) => Ok(Command::Help),
        ("asm", [listing, file]) => Ok(Command::Asm {
            listing: listing.as_str(),
            file: file.as_str(),
        }),
        ("show", [file]) => Ok(Command::Show {
            file: file.as_str(),
        }),
        ("run", [file, budget, room, inputs @ ..]) => Ok(Command::Run {
            file: file.as_str(),
            budget: number("BUDGET", budget)?,
            room: number("ROOM", room)?,
            inputs: inputs
                .iter()
                .map(|input| number("INPUT", input))
                .try_collect(heap)?,
        }),
        ("tidy", [file, out]) => Ok(Command::Tidy {
            file: file.as_str(),
            out: out.as_str(),
        }),
        ("play", []) => Ok(Command::Play { script: None }),
        ("play", [script]) => Ok(Command::Play {
            script: Some(script.as_str()),
        }),
        ("trace", []) => Ok(Command::Trace { script: None }),
        ("trace", [script]) => Ok(Command::Trace {
            script: Some(script.as_str()),
        }),
        (name, _) => Err(wrong_words(name)),
    }
}

/// The error of a command whose operands are not those of its usage.
fn wrong_words(name: &str) -> Error<'_> {
    // No `map_or`: a passed function whose result names a lifetime is not covered.
    match USAGES.iter().find(|usage| usage.name == name) {
        Some(usage) => Error::WrongWords(usage),
        None => Error::UnknownCommand(name),
    }
}

/// The number that the operand `name` is.
fn number<'a, T: InRange>(name: &'static str, word: &'a str) -> Result<T, Error<'a>> {
    word.parse().map_err(|_| Error::NotNumber {
        name,
        word,
        range: T::RANGE,
    })
}
