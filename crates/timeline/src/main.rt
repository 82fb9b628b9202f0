// Reads a record page from standard input and writes to standard output who did what when: the
// operations of each processor and their lanes, or one line that says why and where the page is faulty.
// An argument gives the width of the terminal, 80 where there is none.
#![tactic(auto)]

ghost use Rattle.std.specs.Prelude.{◌≡◌, ◌-◌, ◌^◌, min, length, IfOk};
ghost use Rattle.lanes.specs.Report.{report_text};

use entries::entry::{Call, Entry};
use lanes::report::report;
use std::alloc::{AllocError, Global};
use std::env;
use std::io::{Read, Write};

// No call stands for an unset one, so `Entry` has no default.
const UNSET: Entry = Entry {
    processor: 0,
    call: Call::Put,
    from: 0,
    mark: 0,
    to: 0,
    task: 0,
    first: 0,
    second: 0,
};

// How many bytes the report of a page has: without a buffer, the error says how many are needed.
fn report_len(page: &[u8], list: &mut [Entry], width: usize) -> usize
    ensures { result ≡ min (length (report_text (length list.old) page.now width)) (2 ^ 64 - 1) }
{
    report(page, list, width, &mut []).unwrap_or_else(|short| short.needed)
}

// The report of a page. The list has room for every page: a page has at most 32,768 bytes, and a line 48 at least.
fn shown(heap: Global, page: &[u8], width: usize) -> Result<Vec<u8>, AllocError>
    ensures { IfOk result (λ v. v.items ≡ report_text 1024 page.now width) }
{
    let mut list = vec![in heap; UNSET; 1024]?;
    let n = report_len(page, &mut list, width);
    let mut out = vec![in heap; 0u8; n]?;
    report(page, &mut list, width, &mut out).unwrap();
    Ok(out)
}

fn main(rt: HostRuntime) -> anyhow::Result<()> {
    let heap = rt.alloc();
    let mut page = Vec::new(heap);
    // one byte more than a page may have is enough to refuse it
    rt.stdin().take(32769).read_to_end(&mut page)?;
    let width = env::args(&rt)?
        .nth(1)
        .and_then(|word| word.as_str().parse().ok())
        .unwrap_or(80);
    let out = shown(heap, page.as_slice(), width)?;
    rt.stdout().write_all(out.as_slice())?;
    Ok(())
}
