// Numbers in base ten, without leading zeros.
ghost use Rattle.std.specs.Prelude.{◌≡◌};
ghost use Rattle.std.specs.Range.{range_inclusive_start, range_inclusive_end};
ghost use Rattle.text.specs.Exact.{ReadsNumber};
ghost use Rattle.text.specs.Figures.{number, figures};

use std::ops::RangeInclusive;

// The number that all of `word` writes, if it is at most `most`.
fn read_number(word: &[u8], most: u32) -> Option<u32>
    ensures { result ≡ number most word.now }
{
    match word {
        [] => None,
        [b'0'] => Some(0),
        [b'0', ..] => None,
        _ => read_figures(word, most),
    }
}

fn read_figures(word: &[u8], most: u32) -> Option<u32>
    ensures { result ≡ figures most 0 word.now }
{
    let mut n: u32 = 0;
    for c in word {
        if !c.is_ascii_digit() {
            return None;
        }
        let next = u64::from(n) * 10 + u64::from(*c - b'0');
        if next > u64::from(most) {
            return None;
        }
        n = next as u32;
    }
    Some(n)
}

// The number that all of `word` writes, within a range.
pub(crate) fn read_within(word: &[u8], range: &RangeInclusive<u32>) -> Option<u32>
    ensures { ReadsNumber (range_inclusive_start range.now) (range_inclusive_end range.now) word.now result }
{
    read_number(word, *range.end()).filter(|n| *range.start() <= *n)
}
