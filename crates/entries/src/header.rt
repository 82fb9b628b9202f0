// What a page says of its pool.
ghost use Rattle.std.specs.Prelude.{◌≡◌, ◌-◌};

// The kinds of head register that a pool may have.
#[derive(Clone, Copy, PartialEq, Eq, Debug)]
pub enum Register {
    Word,
    Tree,
    Range,
}

// The job types that a page may show.
#[derive(Clone, Copy, PartialEq, Eq, Debug)]
pub enum JobKind {
    Check,
    Span,
}

// What a page says of its pool: places are 3 to 257, processors 1 to 16.
#[derive(Clone, Copy, PartialEq, Eq, Debug)]
pub struct Header {
    pub register: Register,
    pub places: u32,
    pub processors: u32,
    pub job: JobKind,
}

impl Header {
    // The largest number of a processor; 0 where a header has none.
    pub fn last_processor(&self) -> u32
        ensures { result ≡ self.now.processors - 1 }
    {
        self.processors.saturating_sub(1)
    }

    // The largest number of a task; 0 where a header has none.
    pub fn last_task(&self) -> u32
        ensures { result ≡ self.now.places - 2 }
    {
        self.places.saturating_sub(2)
    }
}
