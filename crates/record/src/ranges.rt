// What is asked of a page before it is written.
ghost use Rattle.std.specs.Prelude.{◌≡◌};
ghost use Rattle.std.specs.List.{list_all};
ghost use Rattle.jobs.specs.JobType.{kind};
ghost use Rattle.record.specs.Header.{header_ok};
ghost use Rattle.record.specs.Write.{in_range, is_job};

use crate::lines::shows_job;
use entries::entry::Entry;
use entries::header::Header;
use entries::page::Page;
use jobs::job::Job;

pub(crate) fn header_in_range(h: &Header) -> bool
    ensures { result ≡ header_ok h.now }
{
    (3..=257).contains(&h.places) && (1..=16).contains(&h.processors)
}

fn entry_in_range(h: &Header, e: &Entry) -> bool
    ensures { result ≡ in_range h.now e.now }
{
    e.processor <= h.last_processor()
        && e.from <= 65535
        && e.mark <= 65535
        && e.to <= 65535
        && e.task <= h.last_task()
}

fn entry_has_job<J: Job + Drop>(e: &Entry) -> bool
    ensures { result ≡ is_job (kind J.Job.names J.Job.made) e.now }
{
    !shows_job(e) || J::try_from((e.first, e.second)).is_ok()
}

pub(crate) fn all_in_range(page: &Page<'_>) -> bool
    ensures { result ≡ list_all (in_range page.now.header) page.now.entries.now }
{
    page.entries.iter().all(|e| entry_in_range(&page.header, e))
}

pub(crate) fn all_have_jobs<J: Job + Drop>(entries: &[Entry]) -> bool
    ensures { result ≡ list_all (is_job (kind J.Job.names J.Job.made)) entries.now }
{
    entries.iter().all(|e| entry_has_job::<J>(e))
}
