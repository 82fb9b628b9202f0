// A record page as somebody wants to see it: its timeline, or the one line of its fault.
ghost use Rattle.std.specs.Prelude.{◌≡◌, ◌≤◌, length, take, Err, IfOk};
ghost use Rattle.std.specs.Result.{MatchResult, IsOkAnd};
ghost use Rattle.record.specs.Read.{read_page_gives, list_of_page};
ghost use Rattle.lanes.specs.Report.{IsPage, answer_text, report_text, report_size, report_buffer};

use crate::timeline::put_timeline;
use entries::entry::Entry;
use entries::header::Header;
use entries::page::Page;
use record::read::read_page;
use text::fault::PlacedFault;
use text::fault_line::put_fault;
use text::sink::{Buffer, Counter, Sink};

// The report needs a buffer of so many bytes.
#[derive(Clone, Copy, PartialEq, Eq, Debug)]
pub struct BufferTooShort {
    pub needed: usize,
}

// The page that a reader left in the list, or its fault.
fn page_in(
    list: &[Entry],
    read: Result<(Header, usize), PlacedFault>,
) -> Result<Page<'_>, PlacedFault>
    requires { IfOk read (λ p. p.1 ≤ length list.now) }
    ensures { MatchResult read (λ p. IsOkAnd result (IsPage p.0 (take p.1 list.now))) (λ f. result ≡ Err f) }
{
    let (header, n) = read?;
    Ok(Page {
        header,
        entries: &list[..n],
    })
}

fn put_answer<S: Sink<u8>>(s: &mut S, answer: &Result<Page<'_>, PlacedFault>, width: usize)
    ensures { S.Sink.took s.old (answer_text answer.now width) s.new }
{
    match answer {
        Ok(page) => put_timeline(s, page, width),
        Err(fault) => put_fault(s, fault),
    }
}

// Reads a page into the list and writes its report from the start of the buffer: how many bytes it has.
// Where the buffer is too short nothing is written, and the error says how many it has to have.
pub fn report(
    text: &[u8],
    list: &mut [Entry],
    width: usize,
    out: &mut [u8],
) -> Result<usize, BufferTooShort>
    ensures value { result ≡ report_size (report_text (length list.old) text.now width) (length out.old) }
    ensures bytes { out.new ≡ report_buffer (report_text (length list.old) text.now width) out.old }
    ensures filled { list.new ≡ list_of_page (read_page_gives (length list.old) text.now) list.old }
{
    let read = read_page(text, list);
    let answer = page_in(list, read);
    let mut count = Counter { n: 0 };
    put_answer(&mut count, &answer, width);
    let needed = count.n;
    if needed > out.len() {
        return Err(BufferTooShort { needed });
    }
    let mut fill = Buffer { out, at: 0 };
    put_answer(&mut fill, &answer, width);
    Ok(needed)
}
