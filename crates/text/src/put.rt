// Bytes, numbers and pairs, put into a sink.
ghost use Rattle.std.specs.Prelude.{◌≡◌, decimal};
ghost use Rattle.text.specs.Written.{two_figures, word_pair, number_pair};

use crate::sink::Sink;

pub fn put_bytes<S: Sink<u8>>(s: &mut S, bs: &[u8])
    ensures { S.Sink.took s.old bs.now s.new }
{
    for b in bs {
        s.put(*b);
    }
}

// The last two figures of a number that has two or more.
fn put_two_figures<S: Sink<u8>>(s: &mut S, n: usize)
    ensures { S.Sink.took s.old (two_figures n) s.new }
{
    s.put(b'0' + (n / 10 % 10) as u8);
    s.put(b'0' + (n % 10) as u8);
}

// Its figures are written here and by no crate, so that what a page says of numbers rests on the standard library alone.
pub fn put_number<S: Sink<u8>>(s: &mut S, n: usize)
    ensures { S.Sink.took s.old (decimal n) s.new }
{
    match n {
        0..=9 => s.put(b'0' + n as u8),
        10..=99 => put_two_figures(s, n),
        _ => {
            put_number(s, n / 100);
            put_two_figures(s, n);
        }
    }
}

pub fn put_word<S: Sink<u8>>(s: &mut S, key: &[u8], word: &[u8], end: u8)
    ensures { S.Sink.took s.old (word_pair key.now word.now end) s.new }
{
    put_bytes(s, key);
    s.put(b'=');
    put_bytes(s, word);
    s.put(end);
}

// Like `put_word`, but for the value: a number's figures are put one by one and stand in no slice that would be a word.
pub fn put_pair<S: Sink<u8>>(s: &mut S, key: &[u8], n: usize, end: u8)
    ensures { S.Sink.took s.old (number_pair key.now n end) s.new }
{
    put_bytes(s, key);
    s.put(b'=');
    put_number(s, n);
    s.put(end);
}
