// What a job type is.
ghost use Rattle.std.specs.Prelude.{◌≡◌, ℕ, Result, Option};
ghost use Rattle.jobs.specs.JobType.{Names, Named, Converts, Laws};
ghost use Rattle.jobs.specs.declared.job.NoJob.{NoJob as NoJobs};

// The words of a job type on a page: its name, and the keys of the two numbers of a job, each 1 to 8 small letters.
#[derive(Clone, Copy)]
pub struct Words {
    pub name: &'static [u8],
    pub first_key: &'static [u8],
    pub second_key: &'static [u8],
}

// Two numbers that make no job of the type.
#[derive(Clone, Copy, PartialEq, Eq, Debug)]
pub struct NoJob;

pub trait Job: TryFrom<(u32, u32), Error = NoJob> {
    // the words
    ghost names: { Names };

    // the two numbers of a job
    ghost pair: { Self → ℕ × ℕ };

    // the job that two numbers make, if they make one
    ghost made: { ℕ → ℕ → Option Self };

    fn words() -> Words
        ensures { Named result names };

    // looks at a job and leaves it, which `From` would use up
    fn numbers(&self) -> (u32, u32)
        ensures { result ≡ pair self.now };

    // what every job type owes: accepted numbers come back, and so does a job
    ghost laws: { Laws names pair made };

    // a conversion gives the job that the numbers make
    ghost converts: { (v : ℕ × ℕ) (r : Result Self NoJobs) → Self.TryFrom.try_from_gives v r → Converts made v r };
}
