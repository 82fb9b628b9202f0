// The record page, written into a lent buffer.
ghost use Rattle.std.specs.Prelude.{◌≡◌, length};
ghost use Rattle.jobs.specs.JobType.{kind};
ghost use Rattle.record.specs.Write.{page_text, write_jobs_gives, write_page_gives, text_size, buffer_after};
ghost use Rattle.record.specs.Trip.{MakesWhatIsRead};

use crate::head::put_head;
use crate::lines::put_entries;
use crate::ranges::{all_have_jobs, all_in_range, header_in_range};
use crate::refusal::WriteRefusal;
use entries::header::JobKind;
use entries::page::Page;
use jobs::check::Check;
use jobs::job::Job;
use jobs::span::Span;
use text::sink::{Buffer, Counter, Sink};

#[tactic(auto, unfolding(crate::specs::Write::page_text))]
fn put_page<S: Sink<u8>, J: Job>(s: &mut S, page: &Page<'_>)
    ensures { S.Sink.took s.old (page_text (kind J.Job.names J.Job.made) page.now.header page.now.entries.now) s.new }
{
    put_head(s, &page.header);
    put_entries::<S, J>(s, page.entries);
}

#[tactic(auto, unfolding(crate::specs::Write::write_jobs_gives))]
fn write_jobs<J: Job + Drop>(page: &Page<'_>, out: &mut [u8]) -> Result<usize, WriteRefusal>
    ensures value { result ≡ text_size (write_jobs_gives (kind J.Job.names J.Job.made) (length out.old) page.now.header page.now.entries.now) }
    ensures bytes { out.new ≡ buffer_after (write_jobs_gives (kind J.Job.names J.Job.made) (length out.old) page.now.header page.now.entries.now) out.old }
{
    if !header_in_range(&page.header) || !all_in_range(page) {
        return Err(WriteRefusal::OutOfRange);
    }
    if !all_have_jobs::<J>(page.entries) {
        return Err(WriteRefusal::JobRefused);
    }
    // no line is empty, so the page is too long, which need not be counted
    if page.entries.len() > 32768 {
        return Err(WriteRefusal::PageTooLong);
    }
    let mut count = Counter { n: 0 };
    put_page::<Counter, J>(&mut count, page);
    let n = count.n;
    if n > 32768 {
        return Err(WriteRefusal::PageTooLong);
    }
    if n > out.len() {
        return Err(WriteRefusal::BufferTooShort);
    }
    let mut fill = Buffer { out, at: 0 };
    put_page::<Buffer<u8>, J>(&mut fill, page);
    Ok(n)
}

// Writes the page from the start of the buffer, and answers how many bytes it has; a refusal writes nothing.
pub fn write_page(page: &Page<'_>, out: &mut [u8]) -> Result<usize, WriteRefusal>
    ensures value { result ≡ text_size (write_page_gives (length out.old) page.now.header page.now.entries.now) }
    ensures bytes { out.new ≡ buffer_after (write_page_gives (length out.old) page.now.header page.now.entries.now) out.old }
    ensures trip { MakesWhatIsRead page.now.header page.now.entries.now result out.new }
{
    // the header's word chooses a type, which no closure is generic in
    match page.header.job {
        JobKind::Check => write_jobs::<Check>(page, out),
        JobKind::Span => write_jobs::<Span>(page, out),
    }
}
