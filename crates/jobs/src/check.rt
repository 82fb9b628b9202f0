// The check of one igniter line.
ghost use Rattle.jobs.specs.JobType.{Converts};
ghost use Rattle.jobs.specs.Check.{check_names, check_pair, check_of};
ghost use Rattle.jobs.specs.CheckLaws.{check_laws};

use crate::job::{Job, NoJob, Words};

// `line` is 1 to 1,024; `limit`, the largest resistance that passes, is 1 to 999 tenths of an ohm.
#[derive(Clone, Copy)]
pub struct Check {
    pub line: u32,
    pub limit: u32,
}

impl TryFrom<(u32, u32)> for Check {
    type Error = NoJob;

    ghost try_from_gives = { Converts check_of };

    fn try_from((line, limit): (u32, u32)) -> Result<Check, NoJob> {
        if (1..=1024).contains(&line) && (1..=999).contains(&limit) {
            Ok(Check { line, limit })
        } else {
            Err(NoJob)
        }
    }
}

impl Job for Check {
    ghost names = { check_names };

    ghost pair = { check_pair };

    ghost made = { check_of };

    ghost laws = { check_laws };

    ghost converts = { λ v r e. e };

    fn words() -> Words {
        Words {
            name: b"check",
            first_key: b"line",
            second_key: b"limit",
        }
    }

    fn numbers(&self) -> (u32, u32) {
        (self.line, self.limit)
    }
}
