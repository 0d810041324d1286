//! A listing's text to the locals and words that it says.
ghost use Rattle.std.specs.Prelude.{◌≡◌, ◌==◌, [], ◌∷◌, ◌++◌, OnOk, OnErr, IfOk};
ghost use Rattle.std.specs.List.{before_first};
ghost use Rattle.bytecode.specs.Layout.{file};

use crate::fault::{LineFault, TextFault};
use crate::mnemonic::{MNEMONICS, Operands, find};
use crate::number::InRange;
use bytecode::fault::TooShort;
use bytecode::word::Word;
use bytecode::write::{file_length, write_words};
use std::alloc::{AllocError, Global};

// `heap` is passed from call to call and kept in no struct, as in std: so a signature shows whether a function allocates.

/// What begins a comment.
const COMMENT_MARK: char = ';';

/// What a listing says, a unit or not.
#[derive(Drop)]
pub struct Listing {
    pub locals: u8,
    pub words: Vec<Word>,
}

/// The listing that a text is.
pub fn parse(heap: Global, text: &str) -> Result<Listing, TextFault> {
    let mut lines = (1usize..)
        .zip(text.lines().map(before_comment))
        .filter(|(_, code)| !code.trim_ascii().is_empty());
    let Some((line, first)) = lines.next() else {
        return Err(TextFault {
            line: text.lines().count().max(1),
            fault: LineFault::NoLocals,
        });
    };
    let locals = locals_line(heap, first).map_err(|fault| TextFault { line, fault })?;
    let mut words = Vec::new(heap);
    for (line, code) in lines {
        add_instruction(heap, &mut words, code).map_err(|fault| TextFault { line, fault })?;
    }
    Ok(Listing { locals, words })
}

/// The part of a line that its comment leaves.
fn before_comment(line: &str) -> &str
    ensures { result.now ≡ before_first (λ byte. byte == COMMENT_MARK) line.now }
{
    line.split_once(COMMENT_MARK).map_or(line, |(code, _)| code)
}

/// The words of a text.
pub fn words_of(heap: Global, text: &str) -> Result<Vec<&str>, AllocError> {
    text.split_ascii_whitespace().collect(heap)
}

/// The number of locals that the first line says.
fn locals_line(heap: Global, code: &str) -> Result<u8, LineFault> {
    match words_of(heap, code)?.as_slice() {
        [name, count] if name.eq_ignore_ascii_case("locals") => number(heap, count),
        _ => Err(LineFault::NoLocals),
    }
}

/// Adds the word of the next instruction line.
fn add_instruction(heap: Global, words: &mut Vec<Word>, code: &str) -> Result<(), LineFault>
    ensures ok { OnOk result ((word : Word) × (words.new.items ≡ words.old.items ++ word ∷ [])) }
    ensures err { OnErr result (words.new.items ≡ words.old.items) }
{
    let word = instruction(heap, after_place(code, words.len())?)?;
    words.push(word)?;
    Ok(())
}

/// What follows the place and the colon, which may stand before the instruction at `place`.
fn after_place(code: &str, place: usize) -> Result<&str, LineFault> {
    match code.split_once(':') {
        None => Ok(code),
        Some((label, rest)) if label.trim().parse() == Ok(place) => Ok(rest),
        Some(_) => Err(LineFault::WrongPlace(place)),
    }
}

/// The word that an instruction's text says.
fn instruction(heap: Global, code: &str) -> Result<Word, LineFault> {
    spelled(heap, words_of(heap, code)?.as_slice())
}

/// The word that a name and its operands say.
pub fn spelled(heap: Global, words: &[&str]) -> Result<Word, LineFault> {
    let [name, operands @ ..] = words else {
        return Err(LineFault::NoInstruction);
    };
    let Some(op) = find(&MNEMONICS, name) else {
        return Err(LineFault::UnknownName(String::from_str(heap, name)?));
    };
    let mnemonic = MNEMONICS[op];
    let (drops, arg) = match (mnemonic.operands, operands) {
        (Operands::None, []) => (0, 0),
        (Operands::DropsAndArgument, [drops, arg]) => (number(heap, drops)?, number(heap, arg)?),
        (Operands::Local | Operands::Displacement, [arg]) => (0, number(heap, arg)?),
        _ => return Err(LineFault::WrongOperands(mnemonic)),
    };
    Ok(Word {
        op: op as u8,
        drops,
        arg,
    })
}

/// The number that a word is.
// Unlike the command line's, this error owns the word, since it outlives the text.
pub fn number<T: InRange>(heap: Global, word: &str) -> Result<T, LineFault> {
    word.parse().try_map_err(|_| {
        Ok(LineFault::NotNumber {
            word: String::from_str(heap, word)?,
            range: T::RANGE,
        })
    })
}

/// The bytes of the unit file that a listing says.
pub fn file_of(heap: Global, listing: &Listing) -> Result<Vec<u8>, AllocError>
    ensures { IfOk result (λ bytes. bytes.items ≡ file listing.now.locals listing.now.words.items) }
{
    let words = listing.words.as_slice();
    let length = file_length(words.len()).ok_or(AllocError)?;
    let mut bytes = vec![in heap; 0u8; length]?;
    match write_words(listing.locals, words, bytes.as_mut_slice()) {
        Ok(_) => Ok(bytes),
        Err(TooShort) => unreachable!(),
    }
}
