// The header line.
ghost use Rattle.std.specs.Prelude.{◌≡◌, true, IfOk};
ghost use Rattle.text.specs.Pairs.{outcome};
ghost use Rattle.record.specs.Header.{header_text, header_ok, read_header};

use entries::header::{Header, JobKind, Register};
use text::fault::Fault;
use text::put::{put_pair, put_word};
use text::reader::Reader;
use text::sink::Sink;
use text::spelled::Spelled;

#[tactic(auto, unfolding(crate::specs::Header::read_header, text::specs::Pairs::then))]
pub(crate) fn read_head(r: &mut Reader<'_>) -> Result<Header, Fault>
    ensures value { outcome result r.new.rest.now ≡ read_header r.old.rest.now }
    ensures ranged { IfOk result (λ h. header_ok h ≡ true) }
{
    let register = r.word_field::<Register>(b"register")?;
    let places = r.number_field(b"places", 3..=257)?;
    let processors = r.number_field(b"processors", 1..=16)?;
    let job = r.word_at::<JobKind>(b"job")?;
    r.gap_at(true)?;
    Ok(Header {
        register,
        places,
        processors,
        job,
    })
}

#[tactic(auto, unfolding(crate::specs::Header::header_text))]
pub fn put_head<S: Sink<u8>>(s: &mut S, h: &Header)
    ensures { S.Sink.took s.old (header_text h.now) s.new }
{
    put_word(s, b"register", h.register.to_word(), b' ');
    put_pair(s, b"places", h.places as usize, b' ');
    put_pair(s, b"processors", h.processors as usize, b' ');
    put_word(s, b"job", h.job.to_word(), b'\n');
}
