// Examples of the record page and its report: whole pages of both job types, and every refusal at its edge.
#![tactic(auto)]

use entries::entry::{Call, Entry};
use entries::header::{Header, JobKind, Register};
use entries::page::Page;

// What stands in a list before it is lent.
pub(crate) fn junk() -> Entry {
    Entry {
        processor: 9,
        call: Call::Steal,
        from: 77,
        mark: 78,
        to: 79,
        task: 80,
        first: 81,
        second: 82,
    }
}

pub(crate) fn entry(
    processor: u32,
    call: Call,
    stamps: (u32, u32, u32),
    task: u32,
    job: (u32, u32),
) -> Entry {
    let (from, mark, to) = stamps;
    let (first, second) = job;
    Entry {
        processor,
        call,
        from,
        mark,
        to,
        task,
        first,
        second,
    }
}

pub(crate) fn small_header(job: JobKind) -> Header {
    Header {
        register: Register::Word,
        places: 4,
        processors: 2,
        job,
    }
}

pub(crate) fn page_of(header: Header, entries: &[Entry]) -> Page<'_> {
    Page { header, entries }
}

#[cfg(test)]
mod outcomes;
#[cfg(test)]
mod pages;
#[cfg(test)]
mod read_faults;
#[cfg(test)]
mod timelines;
#[cfg(test)]
mod write_faults;
