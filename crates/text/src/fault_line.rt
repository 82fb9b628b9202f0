// A refusal as a page of its own: one line with its number, its place and its layer.
ghost use Rattle.text.specs.FaultLine.{fault_text};

use crate::fault::PlacedFault;
use crate::put::{put_pair, put_word};
use crate::sink::Sink;

// The line `fault=N line=L byte=B layer=W`.
#[tactic(auto, unfolding(crate::specs::FaultLine::fault_text))]
pub fn put_fault<S: Sink<u8>>(s: &mut S, f: &PlacedFault)
    ensures { S.Sink.took s.old (fault_text f.now) s.new }
{
    put_pair(s, b"fault", f.refusal.number() as usize, b' ');
    put_pair(s, b"line", f.line, b' ');
    put_pair(s, b"byte", f.byte, b' ');
    put_word(s, b"layer", f.refusal.layer().word(), b'\n');
}
