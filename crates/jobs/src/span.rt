// A stretch of the score to be rendered.
ghost use Rattle.jobs.specs.JobType.{Converts};
ghost use Rattle.jobs.specs.Span.{span_names, span_pair, span_of};
ghost use Rattle.jobs.specs.SpanLaws.{span_laws};

use crate::job::{Job, NoJob, Words};

// `first` and `last` are show ticks, 0 to 4,000,000, with `last` not below `first`.
#[derive(Clone, Copy)]
pub struct Span {
    pub first: u32,
    pub last: u32,
}

impl TryFrom<(u32, u32)> for Span {
    type Error = NoJob;

    ghost try_from_gives = { Converts span_of };

    fn try_from((first, last): (u32, u32)) -> Result<Span, NoJob> {
        if first <= last && last <= 4_000_000 {
            Ok(Span { first, last })
        } else {
            Err(NoJob)
        }
    }
}

impl Job for Span {
    ghost names = { span_names };

    ghost pair = { span_pair };

    ghost made = { span_of };

    ghost laws = { span_laws };

    ghost converts = { λ v r e. e };

    fn words() -> Words {
        Words {
            name: b"span",
            first_key: b"first",
            second_key: b"last",
        }
    }

    fn numbers(&self) -> (u32, u32) {
        (self.first, self.last)
    }
}
