// Each refusal of the reader, with its number, line and byte, on both sides of its edge.
use crate::outcomes::{of_checks, of_spans, outcome, outcome_in, refused};
use std::test::Fail;

// 20, 21 and empty text
#[test]
fn whole_text(rt: HostRuntime) -> Result<(), Fail> {
    for (text, want) in [
        (b"".as_slice(), refused(22, 1, 1)),
        (
            b"register=word places=4 processors=2 job=check".as_slice(),
            refused(21, 1, 46),
        ),
        (b"a".as_slice(), refused(21, 1, 2)),
        (b"\n".as_slice(), refused(22, 1, 1)),
        (
            b"\tregister=word places=4 processors=2 job=check\n".as_slice(),
            refused(20, 1, 1),
        ),
    ] {
        assert_eq!(rt; outcome(text), want);
    }
    for (text, want) in [
        (b"x".as_slice(), refused(21, 2, 2)),
        (b"\x1f\n".as_slice(), refused(20, 2, 1)),
        (b"\x7f\n".as_slice(), refused(20, 2, 1)),
        (
            b"op=1 proc=0 call=put from=1 mark=2 to=3 task=1 line=12 limit=40\n\xff".as_slice(),
            refused(20, 3, 1),
        ),
        (b"~".as_slice(), refused(21, 2, 2)),
    ] {
        assert_eq!(rt; of_checks(&rt, text)?, want);
    }
    Ok(())
}

// 22 and 24 in a header
#[test]
fn header_keys(rt: HostRuntime) {
    for (text, want) in [
        (b"register\n".as_slice(), refused(22, 1, 1)),
        (
            b" register=word places=4 processors=2 job=check\n".as_slice(),
            refused(22, 1, 1),
        ),
        (b"Register=word\n".as_slice(), refused(22, 1, 1)),
        (b"register=word\n".as_slice(), refused(22, 1, 14)),
        (b"register=word \n".as_slice(), refused(22, 1, 15)),
        (
            b"register=word  places=4 processors=2 job=check\n".as_slice(),
            refused(22, 1, 15),
        ),
        (
            b"register=word places=4 processors=2\n".as_slice(),
            refused(22, 1, 36),
        ),
        (
            b"register=word processors=2 places=4 job=check\n".as_slice(),
            refused(22, 1, 15),
        ),
        (
            b"register=word places=4 processors=2 job=check job=span\n".as_slice(),
            refused(24, 1, 46),
        ),
        (
            b"register=word places=4 processors=2 job=check \n".as_slice(),
            refused(24, 1, 46),
        ),
    ] {
        assert_eq!(rt; outcome(text), want);
    }
}

// 23 in a header
#[test]
fn header_values(rt: HostRuntime) {
    for (text, want) in [
        (
            b"register=lamps places=4 processors=2 job=check\n".as_slice(),
            refused(23, 1, 10),
        ),
        (
            b"register= places=4 processors=2 job=check\n".as_slice(),
            refused(23, 1, 10),
        ),
        (
            b"register=wor places=4 processors=2 job=check\n".as_slice(),
            refused(23, 1, 10),
        ),
        (
            b"register=words places=4 processors=2 job=check\n".as_slice(),
            refused(23, 1, 10),
        ),
        (
            b"register=word places=2 processors=2 job=check\n".as_slice(),
            refused(23, 1, 22),
        ),
        (
            b"register=word places=3 processors=2 job=check\n".as_slice(),
            Ok(0),
        ),
        (
            b"register=word places=257 processors=2 job=check\n".as_slice(),
            Ok(0),
        ),
        (
            b"register=word places=258 processors=2 job=check\n".as_slice(),
            refused(23, 1, 22),
        ),
        (
            b"register=word places=4 processors=0 job=check\n".as_slice(),
            refused(23, 1, 35),
        ),
        (
            b"register=word places=4 processors=1 job=check\n".as_slice(),
            Ok(0),
        ),
        (
            b"register=word places=4 processors=16 job=check\n".as_slice(),
            Ok(0),
        ),
        (
            b"register=word places=4 processors=17 job=check\n".as_slice(),
            refused(23, 1, 35),
        ),
        (
            b"register=word places=4 processors=2 job=checks\n".as_slice(),
            refused(23, 1, 41),
        ),
        (
            b"register=word places=04 processors=2 job=check\n".as_slice(),
            refused(23, 1, 22),
        ),
        (
            b"register=word places=+4 processors=2 job=check\n".as_slice(),
            refused(23, 1, 22),
        ),
        (
            b"register=word places=99999999999999999999999 processors=2 job=check\n".as_slice(),
            refused(23, 1, 22),
        ),
    ] {
        assert_eq!(rt; outcome(text), want);
    }
}

// 22 in a line
#[test]
fn line_keys(rt: HostRuntime) -> Result<(), Fail> {
    for (text, want) in [
        (b"\n".as_slice(), refused(22, 2, 1)),
        (
            b"op=1 proc=0 call=put from=1 mark=2 to=3 task=1 line=12 limit=40\n\n".as_slice(),
            refused(22, 3, 1),
        ),
        (
            b" op=1 proc=0 call=put from=1 mark=2 to=3 task=1 line=12 limit=40\n".as_slice(),
            refused(22, 2, 1),
        ),
        (b"op=1\n".as_slice(), refused(22, 2, 5)),
        (b"op=1 \n".as_slice(), refused(22, 2, 6)),
        (b"op=1  proc=0\n".as_slice(), refused(22, 2, 6)),
        (
            b"op=1 proc=0 call=put from=1 Mark=2 to=3 task=1 line=12 limit=40\n".as_slice(),
            refused(22, 2, 29),
        ),
        (
            b"op=1 proc=0 call=put from=1 to=3 task=1 line=12 limit=40\n".as_slice(),
            refused(22, 2, 29),
        ),
        (
            b"op=1 proc=0 call=put from=1 mark=2 to=3 task=1\n".as_slice(),
            refused(22, 2, 47),
        ),
        (
            b"op=1 proc=0 call=put from=1 mark=2 to=3 task=1 first=12 limit=40\n".as_slice(),
            refused(22, 2, 48),
        ),
        (
            b"op=1 proc=0 call=put from=1 mark=2 to=3 task=1 line=12\n".as_slice(),
            refused(22, 2, 55),
        ),
        (
            b"op=1 proc=0 call=take from=1 mark=2 to=3 task=1\n".as_slice(),
            refused(22, 2, 48),
        ),
    ] {
        assert_eq!(rt; of_checks(&rt, text)?, want);
    }
    Ok(())
}

// 23 in a line
#[test]
fn line_values(rt: HostRuntime) -> Result<(), Fail> {
    for (text, want) in [
        (
            b"op=0 proc=0 call=put from=1 mark=2 to=3 task=1 line=12 limit=40\n".as_slice(),
            refused(23, 2, 4),
        ),
        (
            b"op=2 proc=0 call=put from=1 mark=2 to=3 task=1 line=12 limit=40\n".as_slice(),
            refused(23, 2, 4),
        ),
        (
            b"op=1 proc=0 call=put from=1 mark=2 to=3 task=1 line=12 limit=40\nop=1 proc=0 call=put from=1 mark=2 to=3 task=1 line=12 limit=40\n".as_slice(),
            refused(23, 3, 4),
        ),
        (
            b"op=1 proc=2 call=put from=1 mark=2 to=3 task=1 line=12 limit=40\n".as_slice(),
            refused(23, 2, 11),
        ),
        (
            b"op=1 proc=1 call=put from=1 mark=2 to=3 task=1 line=12 limit=40\n".as_slice(),
            Ok(1),
        ),
        (
            b"op=1 proc=0 call=puts from=1 mark=2 to=3 task=1 line=12 limit=40\n".as_slice(),
            refused(23, 2, 18),
        ),
        (
            b"op=1 proc=0 call=put from=65536 mark=2 to=3 task=1 line=12 limit=40\n".as_slice(),
            refused(23, 2, 27),
        ),
        (
            b"op=1 proc=0 call=put from=65535 mark=2 to=3 task=1 line=12 limit=40\n".as_slice(),
            Ok(1),
        ),
        (
            b"op=1 proc=0 call=put from=1 mark=65536 to=3 task=1 line=12 limit=40\n".as_slice(),
            refused(23, 2, 34),
        ),
        (
            b"op=1 proc=0 call=put from=1 mark=2 to=65536 task=1 line=12 limit=40\n".as_slice(),
            refused(23, 2, 39),
        ),
        (
            b"op=1 proc=0 call=put from=1 mark=2 to=3 task=3 line=12 limit=40\n".as_slice(),
            refused(23, 2, 46),
        ),
        (
            b"op=1 proc=0 call=put from=1 mark=2 to=3 task=2 line=12 limit=40\n".as_slice(),
            Ok(1),
        ),
        (
            b"op=1 proc=0 call=put from=1 mark=2 to=3 task=1 line=4294967296 limit=40\n".as_slice(),
            refused(23, 2, 53),
        ),
        (
            b"op=1 proc=0 call=put from=1 mark=2 to=3 task=1 line=12 limit=4294967296\n".as_slice(),
            refused(23, 2, 62),
        ),
        (
            b"op=1 proc=0 call=put from=0=1 mark=2 to=3 task=1 line=12 limit=40\n".as_slice(),
            refused(23, 2, 27),
        ),
    ] {
        assert_eq!(rt; of_checks(&rt, text)?, want);
    }
    Ok(())
}

// 24 comes before 25, and job pairs stand only where they are due
#[test]
fn surplus_bytes(rt: HostRuntime) -> Result<(), Fail> {
    for (text, want) in [
        (
            b"op=1 proc=0 call=put from=1 mark=2 to=3 task=1 line=12 limit=40 \n".as_slice(),
            refused(24, 2, 64),
        ),
        (
            b"op=1 proc=0 call=put from=1 mark=2 to=3 task=1 line=12 limit=40 head=1\n".as_slice(),
            refused(24, 2, 64),
        ),
        (
            b"op=1 proc=0 call=take from=1 mark=2 to=3 task=0 line=1 limit=1\n".as_slice(),
            refused(24, 2, 48),
        ),
        (
            b"op=1 proc=0 call=take from=1 mark=2 to=0 task=1 line=1 limit=1\n".as_slice(),
            refused(24, 2, 48),
        ),
        (
            b"op=1 proc=0 call=put from=1 mark=2 to=3 task=1 line=0 limit=40 x\n".as_slice(),
            refused(24, 2, 63),
        ),
        (
            b"op=1 proc=0 call=take from=1 mark=2 to=0 task=1\n".as_slice(),
            Ok(1),
        ),
        (
            b"op=1 proc=1 call=steal from=1 mark=2 to=3 task=0\n".as_slice(),
            Ok(1),
        ),
    ] {
        assert_eq!(rt; of_checks(&rt, text)?, want);
    }
    Ok(())
}

// 25 for checks
#[test]
fn checks_refused(rt: HostRuntime) -> Result<(), Fail> {
    for (text, want) in [
        (
            b"op=1 proc=0 call=put from=1 mark=2 to=3 task=1 line=0 limit=40\n".as_slice(),
            refused(25, 2, 53),
        ),
        (
            b"op=1 proc=0 call=put from=1 mark=2 to=3 task=1 line=1 limit=40\n".as_slice(),
            Ok(1),
        ),
        (
            b"op=1 proc=0 call=put from=1 mark=2 to=3 task=1 line=1024 limit=40\n".as_slice(),
            Ok(1),
        ),
        (
            b"op=1 proc=0 call=put from=1 mark=2 to=3 task=1 line=1025 limit=40\n".as_slice(),
            refused(25, 2, 53),
        ),
        (
            b"op=1 proc=0 call=put from=1 mark=2 to=3 task=1 line=12 limit=0\n".as_slice(),
            refused(25, 2, 53),
        ),
        (
            b"op=1 proc=0 call=put from=1 mark=2 to=3 task=1 line=12 limit=1\n".as_slice(),
            Ok(1),
        ),
        (
            b"op=1 proc=0 call=put from=1 mark=2 to=3 task=1 line=12 limit=999\n".as_slice(),
            Ok(1),
        ),
        (
            b"op=1 proc=0 call=put from=1 mark=2 to=3 task=1 line=12 limit=1000\n".as_slice(),
            refused(25, 2, 53),
        ),
        (
            b"op=1 proc=0 call=put from=1 mark=2 to=3 task=1 line=4294967295 limit=40\n".as_slice(),
            refused(25, 2, 53),
        ),
    ] {
        assert_eq!(rt; of_checks(&rt, text)?, want);
    }
    Ok(())
}

// 25 for spans
#[test]
fn spans_refused(rt: HostRuntime) -> Result<(), Fail> {
    for (text, want) in [
        (
            b"op=1 proc=0 call=put from=1 mark=2 to=3 task=1 first=5 last=5\n".as_slice(),
            Ok(1),
        ),
        (
            b"op=1 proc=0 call=put from=1 mark=2 to=3 task=1 first=6 last=5\n".as_slice(),
            refused(25, 2, 54),
        ),
        (
            b"op=1 proc=0 call=put from=1 mark=2 to=3 task=1 first=0 last=5\n".as_slice(),
            Ok(1),
        ),
        (
            b"op=1 proc=0 call=put from=1 mark=2 to=3 task=1 first=4000000 last=4000000\n".as_slice(),
            Ok(1),
        ),
        (
            b"op=1 proc=0 call=put from=1 mark=2 to=3 task=1 first=5 last=4000001\n".as_slice(),
            refused(25, 2, 54),
        ),
        (
            b"op=1 proc=0 call=put from=1 mark=2 to=3 task=1 line=12 limit=40\n".as_slice(),
            refused(22, 2, 48),
        ),
    ] {
        assert_eq!(rt; of_spans(&rt, text)?, want);
    }
    Ok(())
}

// 27 lies at the start of the line too many, and a fault of that line comes first.
#[test]
fn full_list(rt: HostRuntime) {
    let none = b"register=word places=4 processors=2 job=check\n";
    let two =
        b"register=word places=4 processors=2 job=check\nop=1 proc=0 call=take from=0 mark=0 to=0 task=0\nop=2 proc=1 call=steal from=0 mark=0 to=0 task=0\n";
    let job_refused =
        b"register=word places=4 processors=2 job=check\nop=1 proc=0 call=take from=0 mark=0 to=0 task=0\nop=2 proc=0 call=put from=0 mark=0 to=0 task=0 line=0 limit=0\n";
    assert_eq!(rt; outcome_in(none, 0), Ok(0));
    assert_eq!(rt; outcome_in(two, 0), refused(27, 2, 1));
    assert_eq!(rt; outcome_in(two, 1), refused(27, 3, 1));
    assert_eq!(rt; outcome_in(two, 2), Ok(2));
    assert_eq!(rt; outcome_in(job_refused, 0), refused(27, 2, 1));
    assert_eq!(rt; outcome_in(job_refused, 1), refused(25, 3, 53));
    assert_eq!(rt; outcome_in(job_refused, 2), refused(25, 3, 53));
}
