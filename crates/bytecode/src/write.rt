//! A unit to a file's bytes.
ghost use Rattle.std.specs.Prelude.{◌≡◌, ◌+◌, ◌*◌, ◌^◌, ◌≤◌, ◌++◌, map, length, take, drop, IfOk, MatchOption};
ghost use Rattle.std.specs.List.{flat_map};
ghost use Rattle.bytecode.specs.Layout.{encoded, file};
ghost use Rattle.bytecode.specs.Files.{bytes_of, WriteOutcome, ReadsBack};

use crate::fault::TooShort;
use crate::sum::check_sum;
use crate::unit::Unit;
use crate::word::{Spelled, Word};

/// Copies `bytes` into `out` from the index `at` on.
fn put(out: &mut [u8], at: usize, bytes: &[u8])
    requires { at + length bytes.now ≤ length out.old }
    ensures { out.new ≡ take at out.old ++ (bytes.now ++ drop (at + length bytes.now) out.old) }
{
    out[at..at + bytes.len()].copy_from_slice(bytes);
}

/// Writes the words of `items` behind the first four bytes.
fn put_words<S: Spelled>(items: &[S], out: &mut [u8])
    requires { 4 + 6 * length items.now ≤ length out.old }
    ensures { out.new ≡ (take 4 out.old ++ flat_map encoded (map S.spelling items.now)) ++ drop (4 + 6 * length items.now) out.old }
{
    // By place: the library does not say what a slice ends as once a loan of its chunks is over.
    for (place, item) in items.iter().enumerate() {
        put(out, 4 + 6 * place, &<[u8; 6]>::from(item.word()));
    }
}

/// The length of the file that `count` words make; none where it is past 64 bits.
pub fn file_length(count: usize) -> Option<usize>
    ensures { MatchOption result (2 ^ 64 ≤ 6 + 6 * count) (λ n. n ≡ 6 + 6 * count) }
{
    count.checked_mul(6)?.checked_add(6)
}

/// Writes the file that the words of `items` make over `locals` locals to the front of `out`, and answers its length.
fn write_items<S: Spelled>(locals: u8, items: &[S], out: &mut [u8]) -> Result<usize, TooShort>
    ensures { WriteOutcome (file locals (map S.spelling items.now)) out.old out.new result }
{
    let end = match file_length(items.len()) {
        Some(length) if length <= out.len() => length - 2,
        _ => return Err(TooShort),
    };
    let [high, low] = ((items.len() % 65_536) as u16).to_be_bytes();
    put(out, 0, &[1, locals, high, low]);
    put_words(items, out);
    let check = check_sum(&out[0..end]).to_be_bytes();
    put(out, end, &check);
    Ok(end + 2)
}

/// Writes the file that `words` make over `locals` locals to the front of `out`, a unit or not, and answers its length.
pub fn write_words(locals: u8, words: &[Word], out: &mut [u8]) -> Result<usize, TooShort>
    ensures { WriteOutcome (file locals words.now) out.old out.new result }
{
    write_items(locals, words, out)
}

/// Writes the file of `unit` to the front of `out`, and answers its length.
pub fn write(unit: &Unit, out: &mut [u8]) -> Result<usize, TooShort>
    ensures answer { WriteOutcome (bytes_of unit.now) out.old out.new result }
    ensures back { IfOk result (λ n. ReadsBack unit.now out.new n) }
{
    write_items(unit.locals, unit.instructions(), out)
}
