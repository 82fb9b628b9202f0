// Each refusal of the writer on both sides of its edge, and the longest page there is.
use crate::{entry, junk, page_of, small_header};
use entries::entry::{Call, Entry};
use entries::header::{Header, JobKind, Register};
use record::read::read_page;
use record::refusal::WriteRefusal;
use record::write::write_page;
use std::alloc::{AllocError, Global};
use std::process::Abort;
use std::test::Fail;
use text::fault::{PlacedFault, Refusal};

// What comes of writing one entry into a buffer of 300: its refusal, or none. A refusal has to leave the buffer as it was.
fn refusal(rt: &impl Abort, header: &Header, e: Entry) -> Result<Option<WriteRefusal>, Fail> {
    let mut out = [7u8; 300];
    match write_page(&page_of(*header, &[e]), &mut out) {
        Ok(_) => Ok(None),
        Err(why) => {
            assert!(rt; out == [7u8; 300]);
            Ok(Some(why))
        }
    }
}

#[test]
fn header_ranges(rt: HostRuntime) -> Result<(), Fail> {
    let e = entry(0, Call::Take, (0, 0, 0), 0, (0, 0));
    let out_of_range = Some(WriteRefusal::OutOfRange);
    for (places, processors, want) in [
        (2, 1, out_of_range),
        (3, 1, None),
        (257, 16, None),
        (258, 16, out_of_range),
        (3, 0, out_of_range),
        (3, 17, out_of_range),
    ] {
        let header = Header {
            register: Register::Tree,
            places,
            processors,
            job: JobKind::Span,
        };
        assert_eq!(rt; refusal(&rt, &header, e)?, want);
    }
    Ok(())
}

#[test]
fn entry_ranges(rt: HostRuntime) -> Result<(), Fail> {
    let header = small_header(JobKind::Check);
    let out_of_range = Some(WriteRefusal::OutOfRange);
    for (processor, stamps, task, want) in [
        (1, (65535, 65535, 65535), 2, None),
        (2, (1, 1, 1), 1, out_of_range),
        (0, (65536, 1, 1), 1, out_of_range),
        (0, (1, 65536, 1), 1, out_of_range),
        (0, (1, 1, 65536), 1, out_of_range),
        (0, (1, 1, 1), 3, out_of_range),
    ] {
        assert_eq!(rt;
            refusal(
                &rt,
                &header,
                entry(processor, Call::Take, stamps, task, (1, 1))
            )?,
            want
        );
    }
    Ok(())
}

// A job is looked at where it is shown, and only there.
#[test]
fn jobs(rt: HostRuntime) -> Result<(), Fail> {
    let refused = Some(WriteRefusal::JobRefused);
    for (job, call, to, task, numbers, want) in [
        (JobKind::Check, Call::Put, 0, 1, (0, 40), refused),
        (JobKind::Check, Call::Put, 0, 1, (1, 1), None),
        (JobKind::Check, Call::Put, 0, 1, (1024, 999), None),
        (JobKind::Check, Call::Put, 0, 1, (1025, 999), refused),
        (JobKind::Check, Call::Put, 0, 1, (1024, 1000), refused),
        (JobKind::Check, Call::Take, 3, 1, (1, 0), refused),
        (JobKind::Check, Call::Take, 0, 1, (1, 0), None),
        (JobKind::Check, Call::Steal, 3, 0, (1, 0), None),
        (JobKind::Span, Call::Put, 0, 1, (5, 5), None),
        (JobKind::Span, Call::Put, 0, 1, (6, 5), refused),
        (JobKind::Span, Call::Steal, 3, 1, (0, 4000000), None),
        (JobKind::Span, Call::Steal, 3, 1, (0, 4000001), refused),
    ] {
        assert_eq!(rt;
            refusal(
                &rt,
                &small_header(job),
                entry(0, call, (1, 2, to), task, numbers),
            )?,
            want
        );
    }
    Ok(())
}

// A number out of range in the last entry comes before a job that is refused in the first, and both before a short buffer.
#[test]
fn order_of_checks(rt: HostRuntime) {
    let header = small_header(JobKind::Check);
    let bad_job = entry(0, Call::Put, (1, 2, 3), 1, (0, 0));
    let bad_range = entry(9, Call::Put, (1, 2, 3), 1, (1, 1));
    let mut out = [7u8; 1];
    assert_eq!(rt;
        write_page(&page_of(header, &[bad_job, bad_range]), &mut out),
        Err(WriteRefusal::OutOfRange)
    );
    assert_eq!(rt;
        write_page(&page_of(header, &[bad_job]), &mut out),
        Err(WriteRefusal::JobRefused)
    );
    assert_eq!(rt;
        write_page(&page_of(header, &[]), &mut out),
        Err(WriteRefusal::BufferTooShort)
    );
    assert!(rt; out == [7u8; 1]);
}

// A header alone has 46 bytes.
#[test]
fn short_buffer(rt: HostRuntime) {
    let header = small_header(JobKind::Check);
    let mut out = [7u8; 47];
    assert_eq!(rt;
        write_page(&page_of(header, &[]), &mut out[0..45]),
        Err(WriteRefusal::BufferTooShort)
    );
    assert!(rt; out == [7u8; 47]);
    assert_eq!(rt; write_page(&page_of(header, &[]), &mut out[0..46]), Ok(46));
    assert_eq!(rt; out[46], 7);
}

// 656 takes, of which so many have a stamp of two figures, a byte more each: with 30 the page has 32,768 bytes.
fn takes(heap: Global, wide: usize) -> Result<Vec<Entry>, AllocError> {
    let mut v = Vec::new(heap);
    for i in 0..656usize {
        let from = if i < wide { 10 } else { 1 };
        v.push(entry(0, Call::Take, (from, 0, 0), 0, (0, 0)))?;
    }
    Ok(v)
}

#[test]
fn longest_page(rt: HostRuntime) -> Result<(), Fail> {
    let heap = rt.alloc();
    let header = small_header(JobKind::Check);
    let mut out = vec![in heap; 7u8; 32769]?;
    let entries = takes(heap, 30)?;
    assert_eq!(rt;
        write_page(&page_of(header, entries.as_slice()), &mut out),
        Ok(32768)
    );
    let mut list = vec![in heap; junk(); 656]?;
    assert!(rt; out.len() == 32769);
    assert_eq!(rt;
        read_page(&out.as_slice()[0..32768], &mut list),
        Ok((header, 656))
    );
    assert!(rt; list.as_slice() == entries.as_slice());
    // one byte more
    let too_long = PlacedFault {
        refusal: Refusal::TooLong,
        line: 1,
        byte: 1,
    };
    assert_eq!(rt; read_page(out.as_slice(), &mut list), Err(too_long));
    assert!(rt; list.as_slice() == entries.as_slice());
    Ok(())
}

#[test]
fn page_too_long(rt: HostRuntime) -> Result<(), Fail> {
    let heap = rt.alloc();
    let mut out = vec![in heap; 7u8; 32769]?;
    let entries = takes(heap, 31)?;
    assert_eq!(rt;
        write_page(
            &page_of(small_header(JobKind::Check), entries.as_slice()),
            &mut out
        ),
        Err(WriteRefusal::PageTooLong)
    );
    // a page that is too long is told so before a buffer that is too short
    assert_eq!(rt;
        write_page(
            &page_of(small_header(JobKind::Check), entries.as_slice()),
            &mut []
        ),
        Err(WriteRefusal::PageTooLong)
    );
    let untouched = vec![in heap; 7u8; 32769]?;
    assert!(rt; out.as_slice() == untouched.as_slice());
    Ok(())
}
