// Reports of pages, each as the rules of the timeline have it.
use crate::outcomes::{report_size, reports, too_short};

// Forty stamps on a terminal of the least width, where a column stands for four of them.
#[test]
fn scaled_lanes(rt: HostRuntime) {
    let page =
        b"register=word places=4 processors=2 job=check\nop=1 proc=0 call=put from=1 mark=2 to=4 task=1 line=12 limit=40\nop=2 proc=1 call=steal from=20 mark=21 to=0 task=0\nop=3 proc=0 call=take from=37 mark=38 to=40 task=0\n";
    let want =
        b"register=word places=4 processors=2 job=check\nprocessor 0\n  op=1 call=put task=1 line=12 limit=40 from=1 mark=2 to=4\n  op=3 call=take task=0 from=37 mark=38 to=40 empty\nprocessor 1\n  op=2 call=steal task=0 from=20 mark=21 to=0 unfinished\nlanes: stamps 1 to 40 in 10 columns\nproc=0  |P........T|\nproc=1  |....Sssss>|\n";
    assert!(rt; reports(page, 0, want));
}

#[test]
fn page_without_operations(rt: HostRuntime) {
    let page = b"register=tree places=3 processors=1 job=span\n";
    let want =
        b"register=tree places=3 processors=1 job=span\nprocessor 0\nlanes: stamps 1 to 1 in 1 columns\nproc=0  |.|\n";
    assert!(rt; reports(page, 80, want));
}

#[test]
fn fault_lines(rt: HostRuntime) {
    assert!(rt; reports(b"", 80, b"fault=22 line=1 byte=1 layer=text\n"));
    assert!(rt;
        reports(
            b"register=word places=2\n",
            80,
            b"fault=23 line=1 byte=22 layer=field\n",
        )
    );
    let page =
        b"register=tree places=4 processors=2 job=span\nop=1 proc=0 call=put from=1 mark=2 to=3 task=1 first=6 last=5\n";
    assert!(rt; reports(page, 80, b"fault=25 line=2 byte=54 layer=field\n"));
}

// The report of an empty text has 34 bytes.
#[test]
fn buffer_too_short(rt: HostRuntime) {
    let mut out = [7u8; 512];
    assert_eq!(rt; report_size(b"", 80, &mut out[0..33]), too_short(34));
    assert_eq!(rt; report_size(b"", 80, &mut out[0..34]), Ok(34));
    assert_eq!(rt; out[34], 7);
}
