// The record page, read into a lent list.
ghost use Rattle.std.specs.Prelude.{◌≡◌, ◌≤◌, true, length};
ghost use Rattle.record.specs.Header.{header_ok};
ghost use Rattle.entries.specs.HeaderWords.{job_kind};
ghost use Rattle.record.specs.Read.{read_entries, read_page_gives, size_of, list_after, counted_page, read_answer, list_of_page};
ghost use Rattle.record.specs.Trip.{TakesWhatIsWritten};

use crate::head::read_head;
use crate::read_lines::fill_list;
use entries::entry::Entry;
use entries::header::{Header, JobKind};
use jobs::check::Check;
use jobs::span::Span;
use text::fault::{Fault, PlacedFault};
use text::reader::Reader;
use text::whole_text::{check_whole, place_of};

// The lines after the header, by the job type that the header names.
fn read_lines(lines: &[u8], h: &Header, list: &mut [Entry]) -> Result<u32, Fault>
    requires ranged { header_ok h.now ≡ true }
    requires short { length lines.now ≤ 32768 }
    ensures value { result ≡ size_of (read_entries (job_kind h.now.job) h.now (length list.old) 0 lines.now) }
    ensures filled { list.new ≡ list_after (read_entries (job_kind h.now.job) h.now (length list.old) 0 lines.now) list.old }
{
    // the header's word chooses a type, which no closure is generic in
    match h.job {
        JobKind::Check => fill_list::<Check>(lines, h, list),
        JobKind::Span => fill_list::<Span>(lines, h, list),
    }
}

#[tactic(auto, unfolding(crate::specs::Read::read_page_gives))]
fn read_parts(text: &[u8], list: &mut [Entry]) -> Result<(Header, usize), Fault>
    ensures value { result ≡ counted_page (read_page_gives (length list.old) text.now) }
    ensures filled { list.new ≡ list_of_page (read_page_gives (length list.old) text.now) list.old }
{
    check_whole(text, 32768)?;
    let mut r = Reader { rest: text };
    let header = read_head(&mut r)?;
    let n = read_lines(r.rest, &header, list)?;
    Ok((header, n as usize))
}

// The header of a record and how many entries it has, which stand from the start of the list;
// or why and where the text is refused, and then the list is as it was. The list is lent with a count beside what it
// holds, since the device side has no heap for a `Vec`.
pub fn read_page(text: &[u8], list: &mut [Entry]) -> Result<(Header, usize), PlacedFault>
    ensures value { result ≡ read_answer text.now (read_page_gives (length list.old) text.now) }
    ensures filled { list.new ≡ list_of_page (read_page_gives (length list.old) text.now) list.old }
    ensures trip { TakesWhatIsWritten text.now (length list.old) result list.new }
{
    read_parts(text, list).map_err(|f| place_of(text, f))
}
