// The lines of the operations, put into a sink.
ghost use Rattle.std.specs.Prelude.{◌≡◌};
ghost use Rattle.jobs.specs.JobType.{kind};
ghost use Rattle.record.specs.Lines.{shown, shows, task_end, job_pairs, entry_text, entries_text};

use entries::entry::{Call, Entry};
use jobs::job::Job;
use text::put::{put_pair, put_word};
use text::sink::Sink;
use text::spelled::Spelled;

// Whether a line has the pairs of its job: puts do, and finished operations with a task.
pub(crate) fn is_shown(call: Call, to: u32, task: u32) -> bool
    ensures { result ≡ shown call to task }
{
    call == Call::Put || (to != 0 && task != 0)
}

pub fn shows_job(e: &Entry) -> bool
    ensures { result ≡ shows e.now }
{
    is_shown(e.call, e.to, e.task)
}

// The byte after the task: a space where the job follows, else the line's newline.
fn end_of_task(e: &Entry) -> u8
    ensures { result ≡ task_end e.now }
{
    if shows_job(e) { b' ' } else { b'\n' }
}

// The pairs of the job, if it is shown, and the byte that ends them.
#[tactic(auto, unfolding(crate::specs::Lines::job_pairs))]
pub fn put_job<S: Sink<u8>, J: Job>(s: &mut S, e: &Entry, end: u8)
    ensures { S.Sink.took s.old (job_pairs (kind J.Job.names J.Job.made) e.now end) s.new }
{
    if shows_job(e) {
        let words = J::words();
        put_pair(s, words.first_key, e.first as usize, b' ');
        put_pair(s, words.second_key, e.second as usize, end);
    }
}

#[tactic(auto, unfolding(crate::specs::Lines::entry_text))]
fn put_entry<S: Sink<u8>, J: Job>(s: &mut S, op: usize, e: &Entry)
    ensures { S.Sink.took s.old (entry_text (kind J.Job.names J.Job.made) op e.now) s.new }
{
    put_pair(s, b"op", op, b' ');
    put_pair(s, b"proc", e.processor as usize, b' ');
    put_word(s, b"call", e.call.to_word(), b' ');
    put_pair(s, b"from", e.from as usize, b' ');
    put_pair(s, b"mark", e.mark as usize, b' ');
    put_pair(s, b"to", e.to as usize, b' ');
    put_pair(s, b"task", e.task as usize, end_of_task(e));
    put_job::<S, J>(s, e, b'\n');
}

pub(crate) fn put_entries<S: Sink<u8>, J: Job>(s: &mut S, entries: &[Entry])
    ensures { S.Sink.took s.old (entries_text (kind J.Job.names J.Job.made) 0 entries.now) s.new }
{
    for (i, e) in entries.iter().enumerate() {
        put_entry::<S, J>(s, i + 1, e);
    }
}
