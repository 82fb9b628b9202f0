// How stamps lie on the columns of a lane, and which columns an operation covers.
ghost use Rattle.std.specs.Prelude.{◌≤◌};

use entries::entry::Entry;

// The stamps 1 to `last` lie from left to right on the columns.
#[derive(Clone, Copy)]
pub struct Scale {
    pub last: u32,
    pub columns: u32,
    ghost from_one: { 1 ≤ last },
}

impl Scale {
    ghost use Rattle.std.specs.Prelude.{◌≡◌};
    ghost use Rattle.lanes.specs.Scale.{last_stamp_of, scale_of, column, end_of, covers};

    fn last_stamp(entries: &[Entry]) -> u32
        ensures { result ≡ last_stamp_of entries.now }
    {
        entries
            .iter()
            .map(|e| e.from.max(e.mark.max(e.to)))
            .fold(1, u32::max)
    }

    // A lane has 10 bytes besides its columns.
    pub(crate) fn of(entries: &[Entry], width: usize) -> Self
        ensures { result ≡ scale_of width entries.now }
    {
        let last = Self::last_stamp(entries);
        let room = (width.clamp(20, 1000) - 10) as u32;
        Scale {
            last,
            columns: last.min(room),
        }
    }

    #[tactic(auto, unfolding(crate::specs::Scale::column))]
    pub(crate) fn column(self, stamp: u32) -> u64
        ensures { result ≡ column self stamp }
    {
        u64::from(stamp.saturating_sub(1)) * u64::from(self.columns) / u64::from(self.last)
    }

    // An unfinished operation goes on to the last stamp.
    fn end_of(self, e: &Entry) -> u32
        ensures { result ≡ end_of self e.now }
    {
        if e.to == 0 {
            self.last
        } else {
            e.from.max(e.to)
        }
    }

    pub(crate) fn covers(self, e: &Entry, x: u32) -> bool
        ensures { result ≡ covers self e.now x }
    {
        let covered = self.column(e.from)..=self.column(self.end_of(e));
        covered.contains(&u64::from(x))
    }
}
