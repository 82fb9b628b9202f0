// What is asked of a whole text, and where a fault lies in it.
ghost use Rattle.std.specs.Prelude.{◌≡◌, ◌-◌, ◌==◌, not, length, take, count_by};
ghost use Rattle.std.specs.List.{position, suffix_len};
ghost use Rattle.text.specs.Bytes.{plain_byte};
ghost use Rattle.text.specs.Exact.{PassesWhole};
ghost use Rattle.text.specs.Whole.{ended, from_bad, after_bytes, placed, ComesAfter};

use crate::fault::{Fault, PlacedFault, Refusal};

fn is_plain(c: u8) -> bool
    ensures { result ≡ plain_byte c }
{
    c == b'\n' || (b' '..=b'~').contains(&c)
}

fn first_bad(text: &[u8]) -> Option<usize>
    ensures { result ≡ position (λ c. not (plain_byte c)) text.now }
{
    text.iter().position(|c| !is_plain(*c))
}

// The text from its first byte that is not plain; nothing is left where all are.
fn rest_from_bad(text: &[u8]) -> &[u8]
    ensures { result.now ≡ from_bad text.now }
{
    &text[first_bad(text).unwrap_or(text.len())..]
}

#[tactic(auto, using(crate::proofs::Wholes::ended_last))]
fn is_ended(text: &[u8]) -> bool
    ensures { result ≡ ended text.now }
{
    match text {
        [] => true,
        [.., last] => *last == b'\n',
    }
}

// What is asked of a text before any line of it is read: at most `most` bytes, all of them plain, the last a newline.
#[tactic(auto, using(crate::proofs::ReaderLaws::passes_whole), unfolding(crate::specs::Whole::whole))]
pub fn check_whole(text: &[u8], most: usize) -> Result<(), Fault>
    ensures { PassesWhole most text.now result }
{
    if text.len() > most {
        return Err(Refusal::TooLong.at(text));
    }
    let bad = rest_from_bad(text);
    if !bad.is_empty() {
        return Err(Refusal::BadByte.at(bad));
    }
    if !is_ended(text) {
        return Err(Refusal::Unended.at(&[]));
    }
    Ok(())
}

fn count_newlines(bytes: &[u8]) -> usize
    ensures { result ≡ count_by (λ c. c == 10) bytes.now }
{
    bytes.iter().filter(|c| **c == b'\n').count()
}

// How many bytes stand behind the last newline.
fn count_unfinished(bytes: &[u8]) -> usize
    ensures { result ≡ suffix_len (λ c. not (c == 10)) bytes.now }
{
    bytes.iter().rev().take_while(|c| **c != b'\n').count()
}

// The line and the byte in it that come after some bytes.
fn locate(front: &[u8]) -> (usize, usize)
    ensures { result ≡ after_bytes 1 1 front.now }
{
    // each byte is looked at once: all newlines stand before the unfinished line
    let unfinished = count_unfinished(front);
    let lines = &front[..front.len() - unfinished];
    (count_newlines(lines) + 1, unfinished + 1)
}

// The fault with its line and byte.
pub fn place_of(text: &[u8], f: Fault) -> PlacedFault
    ensures value { result ≡ placed text.now f }
    ensures counts { ComesAfter (take (length text.now - f.left) text.now) result.line result.byte }
{
    let at = text.len().saturating_sub(f.left);
    let (line, byte) = locate(&text[0..at]);
    PlacedFault {
        refusal: f.refusal,
        line,
        byte,
    }
}
