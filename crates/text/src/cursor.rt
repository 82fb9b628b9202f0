// Reading pair by pair.
ghost use Rattle.std.specs.Prelude.{◌≡◌, ℕ, ◌≤◌, List, length, decimal, Option};
ghost use Rattle.std.specs.Fn.{FnOnceReturnsAt};
ghost use Rattle.std.specs.List.{position};
ghost use Rattle.std.specs.Option.{option_map};
ghost use Rattle.std.specs.Range.{range_inclusive_start, range_inclusive_end};
ghost use Rattle.text.specs.Exact.{Between, AnyValue, ReadsPair, ReadsEnd, ReadsField};
ghost use Rattle.text.specs.Figures.{within};
ghost use Rattle.text.specs.Pairs.{keyed, stops, word, after, ender, outcome, ReadsBy, FieldBy};

use crate::fault::{Fault, Refusal};
use crate::figures::read_within;
use crate::reader::Reader;
use crate::spelled::Spelled;
use std::ops::RangeInclusive;

// What is left after `key` and `=`.
fn after_key<'a>(text: &'a [u8], key: &[u8]) -> Option<&'a [u8]>
    ensures { option_map (λ x. x.now) result ≡ keyed key.now text.now }
{
    text.strip_prefix(key)?.strip_prefix(b"=")
}

fn first_stop(text: &[u8]) -> Option<usize>
    ensures { result ≡ position stops text.now }
{
    text.iter().position(|c| matches!(*c, b'\n' | b' '))
}

// What stands before the first space or newline, and what is left from there on.
fn split_word(text: &[u8]) -> (&[u8], &[u8])
    ensures word { result.0.now ≡ word text.now }
    ensures rest { result.1.now ≡ after text.now }
{
    text.split_at(first_stop(text).unwrap_or(text.len()))
}

// The byte that ends a pair, which may be the last of its line.
fn end_of(last: bool) -> u8
    ensures { result ≡ ender last }
{
    if last { b'\n' } else { b' ' }
}

impl<'a> Reader<'a> {
    // The value at `key`, by a rule for its word.
    fn value_at<T, F: FnOnce(&[u8]) -> Option<T>>(
        &mut self,
        key: &[u8],
        rule: F,
    ) -> Result<T, Fault>
        requires { F.IsAlwaysCallable rule }
        ensures { ReadsBy (FnOnceReturnsAt F.FnOnce rule) key.now self.old.rest.now (outcome result self.new.rest.now) }
    {
        let Some(text) = after_key(self.rest, key) else {
            return Err(Refusal::OtherKey.at(self.rest));
        };
        let (word, left) = split_word(text);
        let Some(value) = rule(word) else {
            return Err(Refusal::BadValue.at(text));
        };
        self.rest = left;
        Ok(value)
    }

    // The same, with the space after it.
    fn value_field<T: Drop, F: FnOnce(&[u8]) -> Option<T>>(
        &mut self,
        key: &[u8],
        rule: F,
    ) -> Result<T, Fault>
        requires { F.IsAlwaysCallable rule }
        ensures { FieldBy (FnOnceReturnsAt F.FnOnce rule) key.now self.old.rest.now (outcome result self.new.rest.now) }
    {
        let value = self.value_at(key, rule)?;
        self.gap_at(false)?;
        Ok(value)
    }

    // The number at `key`, within a range.
    pub fn number_at(&mut self, key: &[u8], range: RangeInclusive<u32>) -> Result<u32, Fault>
        ensures { ReadsPair key.now (within (range_inclusive_start range) (range_inclusive_end range)) decimal (Between (range_inclusive_start range) (range_inclusive_end range)) self.old.rest.now (outcome result self.new.rest.now) }
    {
        self.value_at(key, |word| read_within(word, &range))
    }

    // The value at `key` that is spelled by a word.
    pub fn word_at<W: Spelled>(&mut self, key: &[u8]) -> Result<W, Fault>
        ensures { ReadsPair key.now W.Spelled.spells W.Spelled.text AnyValue self.old.rest.now (outcome result self.new.rest.now) }
    {
        self.value_at(key, |word| W::from_word(word))
    }

    // The number at `key`, with the space after it.
    pub fn number_field(&mut self, key: &[u8], range: RangeInclusive<u32>) -> Result<u32, Fault>
        ensures { ReadsField key.now (within (range_inclusive_start range) (range_inclusive_end range)) decimal (Between (range_inclusive_start range) (range_inclusive_end range)) self.old.rest.now (outcome result self.new.rest.now) }
    {
        self.value_field(key, |word| read_within(word, &range))
    }

    // The value at `key` that is spelled by a word, with the space after it.
    pub fn word_field<W: Spelled + Drop>(&mut self, key: &[u8]) -> Result<W, Fault>
        ensures { ReadsField key.now W.Spelled.spells W.Spelled.text AnyValue self.old.rest.now (outcome result self.new.rest.now) }
    {
        self.value_field(key, |word| W::from_word(word))
    }

    // The end of a pair: a newline where it is the last of its line, else a space.
    pub fn gap_at(&mut self, last: bool) -> Result<(), Fault>
        ensures { ReadsEnd last self.old.rest.now (outcome result self.new.rest.now) }
    {
        match self.rest.split_first() {
            Some((c, rest)) if *c == end_of(last) => {
                self.rest = rest;
                Ok(())
            }
            Some(_) if last => Err(Refusal::Surplus.at(self.rest)),
            _ => Err(Refusal::OtherKey.at(self.rest)),
        }
    }
}
