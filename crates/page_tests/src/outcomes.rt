// What comes of reading and reporting pages.
use crate::junk;
use lanes::report::report;
use record::read::read_page;
use std::alloc::{AllocError, AllocGlobal};

// A refusal as a page tells it: its number of the table, and where it lies; and whether it left the list as it was.
#[derive(Clone, Copy, PartialEq, Eq, Debug)]
pub(crate) struct NumberedFault {
    number: u32,
    line: usize,
    byte: usize,
    untouched: bool,
}

pub(crate) fn refused(number: u32, line: usize, byte: usize) -> Result<usize, NumberedFault> {
    Err(NumberedFault {
        number,
        line,
        byte,
        untouched: true,
    })
}

// How many entries come of reading a page into a list of four.
pub(crate) fn outcome(page: &[u8]) -> Result<usize, NumberedFault> {
    outcome_in(page, 4)
}

// The same with a list of so many, four at most.
pub(crate) fn outcome_in(page: &[u8], room: usize) -> Result<usize, NumberedFault> {
    let mut list = [junk(); 4];
    match read_page(page, &mut list[0..room.min(4)]) {
        Ok((_, n)) => Ok(n),
        Err(fault) => Err(NumberedFault {
            number: fault.refusal.number(),
            line: fault.line,
            byte: fault.byte,
            untouched: list == [junk(); 4],
        }),
    }
}

// What comes of a page of checks with these lines.
pub(crate) fn of_checks(
    rt: &impl AllocGlobal,
    lines: &[u8],
) -> Result<Result<usize, NumberedFault>, AllocError> {
    of_lines(
        rt,
        b"register=word places=4 processors=2 job=check\n",
        lines,
    )
}

// What comes of a page of spans with these lines.
pub(crate) fn of_spans(
    rt: &impl AllocGlobal,
    lines: &[u8],
) -> Result<Result<usize, NumberedFault>, AllocError> {
    of_lines(rt, b"register=tree places=4 processors=2 job=span\n", lines)
}

fn of_lines(
    rt: &impl AllocGlobal,
    header: &[u8],
    lines: &[u8],
) -> Result<Result<usize, NumberedFault>, AllocError> {
    let mut page = Vec::from_slice(rt.alloc(), header)?;
    page.extend_from_slice(lines)?;
    Ok(outcome(page.as_slice()))
}

// A buffer that is too short for a report: the length that it should have, and whether it stayed as it was.
#[derive(Clone, Copy, PartialEq, Eq, Debug)]
pub(crate) struct TooShort {
    needed: usize,
    untouched: bool,
}

pub(crate) fn too_short(needed: usize) -> Result<usize, TooShort> {
    Err(TooShort {
        needed,
        untouched: true,
    })
}

// The report of a page on a terminal of this width, from the start of a buffer that is full of 7: its length.
pub(crate) fn report_size(page: &[u8], width: usize, out: &mut [u8]) -> Result<usize, TooShort> {
    let mut list = [junk(); 4];
    report(page, &mut list, width, out).map_err(|short| TooShort {
        needed: short.needed,
        untouched: out.iter().all(|b| *b == 7),
    })
}

// Whether this is the report of a page on a terminal of this width.
pub(crate) fn reports(page: &[u8], width: usize, want: &[u8]) -> bool {
    let mut out = [7u8; 512];
    report_size(page, width, &mut out).is_ok_and(|n| &out[0..n.min(512)] == want)
}
