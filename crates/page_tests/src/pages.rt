// Whole pages, written and read.
use crate::{entry, junk, page_of, small_header};
use entries::entry::{Call, Entry};
use entries::header::{Header, JobKind, Register};
use record::read::read_page;
use record::write::write_page;
use std::test::Fail;

fn check_page() -> &'static [u8] {
    b"register=word places=4 processors=2 job=check\nop=1 proc=0 call=put from=1 mark=2 to=3 task=1 line=12 limit=40\nop=2 proc=1 call=steal from=4 mark=6 to=10 task=1 line=12 limit=40\nop=3 proc=0 call=take from=5 mark=7 to=11 task=1 line=12 limit=40\n"
}

fn check_entries() -> [Entry; 3] {
    [
        entry(0, Call::Put, (1, 2, 3), 1, (12, 40)),
        entry(1, Call::Steal, (4, 6, 10), 1, (12, 40)),
        entry(0, Call::Take, (5, 7, 11), 1, (12, 40)),
    ]
}

// a put under way, an unfinished take that holds its task, an empty steal, a span of one tick
fn span_page() -> &'static [u8] {
    b"register=range places=257 processors=16 job=span\nop=1 proc=0 call=put from=1 mark=0 to=0 task=1 first=0 last=4000000\nop=2 proc=0 call=take from=2 mark=3 to=0 task=255\nop=3 proc=15 call=steal from=4 mark=5 to=65535 task=0\nop=4 proc=1 call=steal from=6 mark=7 to=8 task=2 first=5 last=5\n"
}

fn span_header() -> Header {
    Header {
        register: Register::Range,
        places: 257,
        processors: 16,
        job: JobKind::Span,
    }
}

fn span_entries() -> [Entry; 4] {
    [
        entry(0, Call::Put, (1, 0, 0), 1, (0, 4000000)),
        entry(0, Call::Take, (2, 3, 0), 255, (0, 0)),
        entry(15, Call::Steal, (4, 5, 65535), 0, (0, 0)),
        entry(1, Call::Steal, (6, 7, 8), 2, (5, 5)),
    ]
}

#[test]
fn reads_checks(rt: HostRuntime) -> Result<(), Fail> {
    let mut list = [junk(); 5];
    let (header, n) = read_page(check_page(), &mut list)?;
    assert_eq!(rt; header, small_header(JobKind::Check));
    assert_eq!(rt; n, 3);
    let want = check_entries();
    assert_eq!(rt; list, [want[0], want[1], want[2], junk(), junk()]);
    Ok(())
}

#[test]
fn reads_spans(rt: HostRuntime) -> Result<(), Fail> {
    let mut list = [junk(); 5];
    let (header, n) = read_page(span_page(), &mut list)?;
    assert_eq!(rt; header, span_header());
    assert_eq!(rt; n, 4);
    let want = span_entries();
    assert_eq!(rt; list, [want[0], want[1], want[2], want[3], junk()]);
    Ok(())
}

#[test]
fn writes_checks(rt: HostRuntime) -> Result<(), Fail> {
    let mut out = [7u8; 300];
    let n = write_page(
        &page_of(small_header(JobKind::Check), &check_entries()),
        &mut out,
    )?;
    assert!(rt; n <= 300);
    assert_eq!(rt; &out[0..n], check_page());
    assert!(rt; out[n..300] == [7u8; 300][n..300]);
    Ok(())
}

#[test]
fn writes_spans(rt: HostRuntime) -> Result<(), Fail> {
    let mut out = [7u8; 300];
    // the numbers of a job that is not shown do not matter
    let mut entries = span_entries();
    entries[1].first = 9;
    let n = write_page(&page_of(span_header(), &entries), &mut out)?;
    assert!(rt; n <= 300);
    assert_eq!(rt; &out[0..n], span_page());
    Ok(())
}
