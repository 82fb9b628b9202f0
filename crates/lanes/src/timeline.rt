// The whole text of a timeline.
ghost use Rattle.std.specs.Prelude.{take};
ghost use Rattle.entries.specs.HeaderWords.{job_kind};
ghost use Rattle.lanes.specs.Listing.{listing};
ghost use Rattle.lanes.specs.Tells.{LanesTell};
ghost use Rattle.lanes.specs.Timeline.{timeline_text};

use crate::lane::Lanes;
use crate::listing::put_listing;
use entries::header::JobKind;
use entries::page::Page;
use jobs::check::Check;
use jobs::span::Span;
use record::head::put_head;
use text::sink::Sink;

// The operations, with the keys of the job type that the header names.
fn put_listing_for<S: Sink<u8>>(s: &mut S, page: &Page<'_>)
    ensures { S.Sink.took s.old (listing (job_kind page.now.header.job) page.now.entries.now page.now.header.processors) s.new }
{
    // a closure is not generic in a type, and a job type has no value for a `dyn`
    match page.header.job {
        JobKind::Check => put_listing::<S, Check>(s, page),
        JobKind::Span => put_listing::<S, Span>(s, page),
    }
}

// The timeline of the first 65,535 entries, as wide as the terminal has room.
pub fn put_timeline<S: Sink<u8>>(s: &mut S, page: &Page<'_>, width: usize)
    ensures text { S.Sink.took s.old (timeline_text page.now.header page.now.entries.now width) s.new }
    ensures tells { LanesTell width (take 65535 page.now.entries.now) }
{
    let shown = Page {
        header: page.header,
        entries: &page.entries[..page.entries.len().min(65535)],
    };
    let lanes = Lanes::new(shown.entries, width);
    put_head(s, &shown.header);
    put_listing_for(s, &shown);
    lanes.put_title(s);
    lanes.put_all(s, shown.header.processors);
}
