//! How often each kind of thing that is compared occurred.
use facts::frame::Frame;
use facts::live::LiveSet;
use generate::Sort;
use second::desk::{Ask, Say};
use second::fault::{Fault, Layer};
use second::routine::Row;
use std::fmt;
use workspace::shown::Facts;

/// How many sorts of calls there are.
const CALL_SORTS: usize = 11;

/// The sorts of calls, in the order of their counts.
const CALL_NAMES: [&str; CALL_SORTS] = [
    "load",
    "open",
    "propose",
    "tidy",
    "keep",
    "abandon",
    "run",
    "write-out",
    "facts",
    "takes",
    "unit",
];

/// One more than the highest number of an ending.
const ENDING_NUMBERS: usize = 6;

/// How a run can end, by the ending's number.
const ENDING_NAMES: [&str; ENDING_NUMBERS] = [
    "Running", "Halted", "Trapped", "Dry", "Full", "Stuck",
];

/// One more than the highest number of a refusal.
const REFUSAL_NUMBERS: usize = 14;

/// One more than the highest number of a reason.
const REASON_NUMBERS: usize = 5;

/// One more than the highest number of a rule.
const RULE_NUMBERS: usize = 5;

/// How many calls of a sort were made, and how many of them were refused.
#[derive(Clone, Copy)]
struct Calls {
    made: u64,
    refused: u64,
}

/// What occurred.
#[derive(Drop)]
pub struct Counts {
    structured: u64,
    random: u64,
    damaged: u64,
    accepted: u64,
    // By the refusal's number.
    load_refusals: [u64; REFUSAL_NUMBERS],
    // By the reason's number.
    reasons: [u64; REASON_NUMBERS],
    facts: u64,
    types_unreached: u64,
    types_clash: u64,
    constants_unreached: u64,
    constants_clash: u64,
    live: u64,
    // By the rule's number.
    yields: [u64; RULE_NUMBERS],
    tidied: u64,
    changes: u64,
    // By the ending's number.
    runs: [u64; ENDING_NUMBERS],
    written: u64,
    histories: u64,
    calls: [Calls; CALL_SORTS],
    call_refusals: [u64; REFUSAL_NUMBERS],
    cuts: u64,
}

/// One more.
fn raise(count: &mut u64) {
    *count = count.saturating_add(1);
}

/// One more at an index.
fn raise_at(counts: &mut [u64], index: usize) {
    if let Some(count) = counts.get_mut(index) {
        raise(count);
    }
}

/// Which sort of call it is.
fn call_index(ask: &Ask) -> usize {
    match ask {
        Ask::Load(_) => 0,
        Ask::Open => 1,
        Ask::Propose { .. } => 2,
        Ask::Tidy { .. } => 3,
        Ask::Keep { .. } => 4,
        Ask::Abandon { .. } => 5,
        Ask::Run { .. } => 6,
        Ask::WriteOut { .. } => 7,
        Ask::Facts { .. } => 8,
        Ask::Takes => 9,
        Ask::Unit => 10,
    }
}

impl Counts {
    /// Nothing occurred.
    pub fn new() -> Counts {
        Counts {
            structured: 0,
            random: 0,
            damaged: 0,
            accepted: 0,
            load_refusals: [0; REFUSAL_NUMBERS],
            reasons: [0; REASON_NUMBERS],
            facts: 0,
            types_unreached: 0,
            types_clash: 0,
            constants_unreached: 0,
            constants_clash: 0,
            live: 0,
            yields: [0; RULE_NUMBERS],
            tidied: 0,
            changes: 0,
            runs: [0; ENDING_NUMBERS],
            written: 0,
            histories: 0,
            calls: [Calls {
                made: 0,
                refused: 0,
            }; CALL_SORTS],
            call_refusals: [0; REFUSAL_NUMBERS],
            cuts: 0,
        }
    }

    /// A file, and why it is refused, if it is.
    pub fn file(&mut self, sort: Sort, fault: Option<Fault>) {
        match sort {
            Sort::Structured => raise(&mut self.structured),
            Sort::Random => raise(&mut self.random),
            Sort::Damaged => raise(&mut self.damaged),
        }
        match fault {
            None => raise(&mut self.accepted),
            Some(fault) => {
                raise_at(&mut self.load_refusals, usize::from(fault.number));
                if fault.layer == Some(Layer::Verifier) {
                    raise_at(&mut self.reasons, usize::from(fault.reason));
                }
            }
        }
    }

    /// The facts at a place, and the rules that yield something there.
    pub fn place(&mut self, shown: &Facts, yields: &[(u8, Row)]) {
        raise(&mut self.facts);
        match shown.types {
            Frame::Unreached => raise(&mut self.types_unreached),
            Frame::Clash => raise(&mut self.types_clash),
            Frame::At(_) => {}
        }
        match shown.constants {
            Frame::Unreached => raise(&mut self.constants_unreached),
            Frame::Clash => raise(&mut self.constants_clash),
            Frame::At(_) => {}
        }
        if !shown.live.same(LiveSet::new()) {
            raise(&mut self.live);
        }
        for (rule, _) in yields {
            raise_at(&mut self.yields, usize::from(*rule));
        }
    }

    /// A unit is tidied.
    pub fn tidied(&mut self, changes: usize) {
        raise(&mut self.tidied);
        self.changes = self.changes.saturating_add(changes as u64);
    }

    /// A unit is run.
    pub fn run(&mut self, say: &Say) {
        if let Say::Ran(told) = say {
            raise_at(&mut self.runs, usize::from(told.ending));
        }
    }

    /// A unit is written and loaded again.
    pub fn written(&mut self) {
        raise(&mut self.written);
    }

    /// A list of calls is made.
    pub fn history(&mut self) {
        raise(&mut self.histories);
    }

    /// A call of a list and what it gives back.
    pub fn call(&mut self, ask: &Ask, say: &Say) {
        let Some(calls) = self.calls.get_mut(call_index(ask)) else {
            return;
        };
        raise(&mut calls.made);
        if let Say::Refused(fault) = say {
            raise(&mut calls.refused);
            raise_at(&mut self.call_refusals, usize::from(fault.number));
        }
    }

    /// An abandoned attempt is cut out of a list.
    pub fn cut(&mut self) {
        raise(&mut self.cuts);
    }

    fn units(&self) -> u64 {
        self.structured
            .saturating_add(self.random)
            .saturating_add(self.damaged)
    }
}

/// Counts by their numbers, those that are not zero.
#[derive(Clone, Copy)]
struct Numbered<'a>(&'a [u64]);

impl fmt::Display for Numbered<'_> {
    fn fmt<W: fmt::Write>(&self, f: &mut fmt::Formatter<W>) -> fmt::Result {
        let mut gap = "";
        for (number, count) in self.0.iter().enumerate() {
            if *count > 0 {
                write!(f, "{gap}{number}: {count}")?;
                gap = ", ";
            }
        }
        Ok(())
    }
}

impl fmt::Display for Counts {
    fn fmt<W: fmt::Write>(&self, f: &mut fmt::Formatter<W>) -> fmt::Result {
        let units = self.units();
        let refused = units.saturating_sub(self.accepted);
        writeln!(
            f,
            "units {units}: accepted {}, refused {refused}",
            self.accepted
        )?;
        writeln!(
            f,
            "made: structured {}, random {}, damaged {}",
            self.structured, self.random, self.damaged
        )?;
        writeln!(f, "refusals by number: {}", Numbered(&self.load_refusals))?;
        writeln!(f, "refusal 8 by reason: {}", Numbered(&self.reasons))?;
        writeln!(f, "facts: {}", self.facts)?;
        writeln!(
            f,
            "  types unreached {}, clash {}; constants unreached {}, clash {}; some local live {}",
            self.types_unreached,
            self.types_clash,
            self.constants_unreached,
            self.constants_clash,
            self.live
        )?;
        writeln!(f, "yields by rule: {}", Numbered(&self.yields))?;
        writeln!(f, "tidied {}: changes {}", self.tidied, self.changes)?;
        write!(f, "runs by ending:")?;
        for (name, count) in ENDING_NAMES.iter().zip(self.runs.iter()) {
            write!(f, " {name} {count}")?;
        }
        writeln!(f, "\nwritten and loaded again: {}", self.written)?;
        write!(f, "{}", Histories(self))
    }
}

/// What occurred in the lists of calls.
#[derive(Clone, Copy)]
struct Histories<'a>(&'a Counts);

impl fmt::Display for Histories<'_> {
    fn fmt<W: fmt::Write>(&self, f: &mut fmt::Formatter<W>) -> fmt::Result {
        let counts = self.0;
        writeln!(f, "histories: {}", counts.histories)?;
        for (name, calls) in CALL_NAMES.iter().zip(counts.calls.iter()) {
            writeln!(f, "  {name} {}, refused {}", calls.made, calls.refused)?;
        }
        writeln!(
            f,
            "refused calls by number: {}",
            Numbered(&counts.call_refusals)
        )?;
        write!(f, "attempts cut out: {}", counts.cuts)
    }
}
