// The lane of a processor: a byte for each column.
ghost use Rattle.std.specs.Prelude.{◌≡◌, option_map};
ghost use Rattle.lanes.specs.Lane.{padding, capital, small, drawn, first_over, cell, lane_text, cells};
ghost use Rattle.lanes.specs.Scale.{scale_of};
ghost use Rattle.lanes.specs.Tells.{Idle};
ghost use Rattle.lanes.specs.Timeline.{title, lanes_text};

use crate::scale::Scale;
use entries::entry::{Call, Entry};
use text::put::{put_bytes, put_number};
use text::sink::Sink;

fn capital(call: Call) -> u8
    ensures { result ≡ capital call }
{
    match call {
        Call::Put => b'P',
        Call::Take => b'T',
        Call::Steal => b'S',
    }
}

fn small(call: Call) -> u8
    ensures { result ≡ small call }
{
    capital(call).to_ascii_lowercase()
}

// What follows the number of a processor, so that lanes begin at one place.
#[tactic(auto, using(crate::proofs::Paddings::padding_two, crate::proofs::Paddings::padding_one, crate::proofs::Paddings::padding_none))]
fn padding(processor: u32) -> &'static [u8]
    ensures { result.now ≡ padding processor }
{
    match processor {
        0..=9 => b"  ",
        10..=99 => b" ",
        _ => b"",
    }
}

// The entries, and the scale that they are drawn to.
#[derive(Clone, Copy)]
pub(crate) struct Lanes<'a> {
    scale: Scale,
    entries: &'a [Entry],
}

impl<'a> Lanes<'a> {
    pub(crate) fn new(entries: &'a [Entry], width: usize) -> Self
        ensures scale { result.scale ≡ scale_of width entries.now }
        ensures entries { result.entries.now ≡ entries.now }
    {
        Lanes {
            scale: Scale::of(entries, width),
            entries,
        }
    }

    pub(crate) fn put_title<S: Sink<u8>>(&self, s: &mut S)
        ensures { S.Sink.took s.old (title self.now.scale) s.new }
    {
        put_bytes(s, b"lanes: stamps 1 to ");
        put_number(s, self.scale.last as usize);
        put_bytes(s, b" in ");
        put_number(s, self.scale.columns as usize);
        put_bytes(s, b" columns\n");
    }

    // The first operation of the processor that covers the column.
    fn first_over(&self, processor: u32, x: u32) -> Option<&Entry>
        ensures { option_map (λ e. e.now) result ≡ first_over self.now.scale processor self.now.entries.now x }
    {
        self.entries
            .iter()
            .find(|e| e.processor == processor && self.scale.covers(e, x))
    }

    // How an operation looks at a column that it covers.
    fn drawn(&self, e: &Entry, x: u32) -> u8
        ensures { result ≡ drawn self.now.scale e.now x }
    {
        if u64::from(x) == self.scale.column(e.from) {
            capital(e.call)
        } else if e.to == 0 && x == self.scale.columns.saturating_sub(1) {
            b'>'
        } else {
            small(e.call)
        }
    }

    fn cell(&self, processor: u32, x: u32) -> u8
        ensures { result ≡ cell self.now.scale processor self.now.entries.now x }
    {
        // no `map_or`: a proof learns nothing there of what the closure draws
        match self.first_over(processor, x) {
            Some(e) => self.drawn(e, x),
            None => b'.',
        }
    }

    fn put_cells<S: Sink<u8>>(&self, s: &mut S, processor: u32)
        ensures { S.Sink.took s.old (cells self.now.scale self.now.entries.now processor) s.new }
    {
        for x in 0..self.scale.columns {
            s.put(self.cell(processor, x));
        }
    }

    fn put_lane<S: Sink<u8>>(&self, s: &mut S, processor: u32)
        ensures { S.Sink.took s.old (lane_text self.now.scale self.now.entries.now processor) s.new }
    {
        put_bytes(s, b"proc=");
        put_number(s, processor as usize);
        put_bytes(s, padding(processor));
        s.put(b'|');
        self.put_cells(s, processor);
        put_bytes(s, b"|\n");
    }

    pub(crate) fn put_all<S: Sink<u8>>(&self, s: &mut S, processors: u32)
        ensures { S.Sink.took s.old (lanes_text self.now.scale self.now.entries.now processors) s.new }
    {
        for p in 0..processors {
            self.put_lane(s, p);
        }
    }
}

// The byte at a column of a processor's lane, where the terminal is this wide.
pub fn cell_at(entries: &[Entry], width: usize, processor: u32, x: u32) -> u8
    ensures shown { result ≡ cell (scale_of width entries.now) processor entries.now x }
    ensures idle { Idle (scale_of width entries.now) processor entries.now x → result ≡ 46 }
    ensures busy { result ≡ 46 → Idle (scale_of width entries.now) processor entries.now x }
{
    Lanes::new(entries, width).cell(processor, x)
}
