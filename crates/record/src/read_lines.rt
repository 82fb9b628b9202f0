// Reading the lines of the operations.
ghost use Rattle.std.specs.Prelude.{◌≡◌, ℕ, ◌≤◌, min, List, length, Ok};
ghost use Rattle.jobs.specs.JobType.{kind};
ghost use Rattle.text.specs.Pairs.{outcome};
ghost use Rattle.entries.specs.declared.entry.Entry.{Entry as Entries};
ghost use Rattle.record.specs.Read.{read_job, read_entry_gives, read_entries, size_of, list_after};

use crate::lines::is_shown;
use entries::entry::{Call, Entry};
use entries::header::Header;
use jobs::job::Job;
use text::fault::{Fault, Refusal};
use text::reader::Reader;
use text::sink::{Buffer, Counter, Sink};

// The numbers of a job, which its type has to accept; a refusal lies at the first of the two.
#[tactic(auto, unfolding(crate::specs::Read::read_job, text::specs::Pairs::then))]
fn read_job_pairs<J: Job + Drop>(r: &mut Reader<'_>) -> Result<(u32, u32), Fault>
    ensures { outcome result r.new.rest.now ≡ read_job (kind J.Job.names J.Job.made) r.old.rest.now }
{
    let words = J::words();
    let left = r.rest.len().saturating_sub(words.first_key.len() + 1);
    let a = r.number_field(words.first_key, 0..=u32::MAX)?;
    let b = r.number_at(words.second_key, 0..=u32::MAX)?;
    r.gap_at(true)?;
    if J::try_from((a, b)).is_err() {
        // the reader has gone on, and only how much was left is known still
        return Err(Fault {
            refusal: Refusal::JobRefused,
            left,
        });
    }
    Ok((a, b))
}

#[tactic(auto, unfolding(crate::specs::Read::read_entry_gives, text::specs::Pairs::then))]
fn read_entry<J: Job + Drop>(r: &mut Reader<'_>, h: &Header, op: u32) -> Result<Entry, Fault>
    ensures { outcome result r.new.rest.now ≡ read_entry_gives (kind J.Job.names J.Job.made) h.now op r.old.rest.now }
{
    r.number_field(b"op", op..=op)?;
    let processor = r.number_field(b"proc", 0..=h.last_processor())?;
    let call = r.word_field::<Call>(b"call")?;
    let from = r.number_field(b"from", 0..=65535)?;
    let mark = r.number_field(b"mark", 0..=65535)?;
    let to = r.number_field(b"to", 0..=65535)?;
    let task = r.number_at(b"task", 0..=h.last_task())?;
    let shown = is_shown(call, to, task);
    r.gap_at(!shown)?;
    let (first, second) = if shown {
        read_job_pairs::<J>(r)?
    } else {
        (0, 0)
    };
    Ok(Entry {
        processor,
        call,
        from,
        mark,
        to,
        task,
        first,
        second,
    })
}

// Reads the lines to the end of the text, at most `room` of them, and hands each to `s`.
fn read_all<S: Sink<Entry>, J: Job + Drop>(
    r: &mut Reader<'_>,
    h: &Header,
    room: u32,
    s: &mut S,
) -> Result<u32, Fault>
    requires { room ≤ 32768 }
    ensures value { result ≡ size_of (read_entries (kind J.Job.names J.Job.made) h.now room 0 r.old.rest.now) }
    ensures taken { (es : List Entries) → read_entries (kind J.Job.names J.Job.made) h.now room 0 r.old.rest.now ≡ Ok es → S.Sink.took s.old es s.new }
{
    for n in 0..room {
        if r.rest.is_empty() {
            return Ok(n);
        }
        s.put(read_entry::<J>(r, h, n + 1)?);
    }
    if r.rest.is_empty() {
        return Ok(room);
    }
    let full = Refusal::ListFull.at(r.rest);
    // a line too many is refused for a fault of its own first
    read_entry::<J>(r, h, room + 1)?;
    Err(full)
}

// Fills the list from its start; the lines are read twice, so that a refusal leaves the list as it was.
pub(crate) fn fill_list<J: Job + Drop>(
    lines: &[u8],
    h: &Header,
    list: &mut [Entry],
) -> Result<u32, Fault>
    ensures value { result ≡ size_of (read_entries (kind J.Job.names J.Job.made) h.now (min (length list.old) 32768) 0 lines.now) }
    ensures filled { list.new ≡ list_after (read_entries (kind J.Job.names J.Job.made) h.now (min (length list.old) 32768) 0 lines.now) list.old }
{
    let room = list.len().min(32768) as u32;
    let mut once = Reader { rest: lines };
    let mut count = Counter { n: 0 };
    read_all::<Counter, J>(&mut once, h, room, &mut count)?;
    let mut again = Reader { rest: lines };
    let mut fill = Buffer { out: list, at: 0 };
    read_all::<Buffer<Entry>, J>(&mut again, h, room, &mut fill)
}
