// The operations of each processor, a line each.
ghost use Rattle.std.specs.Prelude.{◌≡◌};
ghost use Rattle.jobs.specs.JobType.{kind};
ghost use Rattle.lanes.specs.Listing.{ending, operation_text, operations_of, processor_text, listing};

use entries::entry::Entry;
use entries::page::Page;
use jobs::job::Job;
use record::lines::{put_job, shows_job};
use text::put::{put_bytes, put_number, put_pair, put_word};
use text::sink::Sink;
use text::spelled::Spelled;

// How the line of an operation ends.
fn ending(e: &Entry) -> &'static [u8]
    ensures { result.now ≡ ending e.now }
{
    if e.to == 0 {
        b" unfinished\n"
    } else if shows_job(e) {
        b"\n"
    } else {
        b" empty\n"
    }
}

fn put_operation<S: Sink<u8>, J: Job>(s: &mut S, op: usize, e: &Entry)
    ensures { S.Sink.took s.old (operation_text (kind J.Job.names J.Job.made) op e.now) s.new }
{
    put_bytes(s, b"  ");
    put_pair(s, b"op", op, b' ');
    put_word(s, b"call", e.call.to_word(), b' ');
    put_pair(s, b"task", e.task as usize, b' ');
    put_job::<S, J>(s, e, b' ');
    put_pair(s, b"from", e.from as usize, b' ');
    put_pair(s, b"mark", e.mark as usize, b' ');
    put_bytes(s, b"to=");
    put_number(s, e.to as usize);
    put_bytes(s, ending(e));
}

fn put_operations<S: Sink<u8>, J: Job>(s: &mut S, entries: &[Entry], processor: u32)
    ensures { S.Sink.took s.old (operations_of (kind J.Job.names J.Job.made) processor 0 entries.now) s.new }
{
    for (i, e) in entries.iter().enumerate() {
        if e.processor == processor {
            put_operation::<S, J>(s, i + 1, e);
        }
    }
}

fn put_processor<S: Sink<u8>, J: Job>(s: &mut S, entries: &[Entry], processor: u32)
    ensures { S.Sink.took s.old (processor_text (kind J.Job.names J.Job.made) entries.now processor) s.new }
{
    put_bytes(s, b"processor ");
    put_number(s, processor as usize);
    s.put(b'\n');
    put_operations::<S, J>(s, entries, processor);
}

pub(crate) fn put_listing<S: Sink<u8>, J: Job>(s: &mut S, page: &Page<'_>)
    ensures { S.Sink.took s.old (listing (kind J.Job.names J.Job.made) page.now.entries.now page.now.header.processors) s.new }
{
    for p in 0..page.header.processors {
        put_processor::<S, J>(s, page.entries, p);
    }
}
