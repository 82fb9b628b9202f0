// Why a reader refuses a text, and where.
ghost use Rattle.std.specs.Prelude.{◌≡◌};

// Why a reader refuses a text; each case is its number of the table of refusals.
#[derive(Clone, Copy, PartialEq, Eq, Debug)]
pub enum Refusal {
    // the text has more bytes than a text may have
    TooLong = 19,
    // a byte is neither 10 nor 32 to 126
    BadByte = 20,
    // the text is not empty and its last byte is not 10
    Unended = 21,
    // another key than the one due, or none
    OtherKey = 22,
    // a value outside its words or its range
    BadValue = 23,
    // bytes after the last pair of a line
    Surplus = 24,
    // the job type refuses the numbers of a job
    JobRefused = 25,
    // a record has more entries than the list it is read into
    ListFull = 27,
}

// Which part of a page a refusal speaks of.
#[derive(Clone, Copy)]
pub enum Layer {
    Text,
    Field,
    Pool,
}

// A refusal, and how many bytes of the text are left where it lies.
#[derive(Clone, Copy)]
pub struct Fault {
    pub refusal: Refusal,
    pub left: usize,
}

// A refusal with the line and the byte in the line, each from 1, where it lies.
#[derive(Clone, Copy, PartialEq, Eq, Debug)]
pub struct PlacedFault {
    pub refusal: Refusal,
    pub line: usize,
    pub byte: usize,
}

impl Refusal {
    ghost use Rattle.text.specs.FaultLine.{number_of, layer_of};
    ghost use Rattle.text.specs.Pairs.{fault};

    // The fault that lies where this is what is left of the text.
    pub fn at(self, rest: &[u8]) -> Fault
        ensures { result ≡ fault self rest.now }
    {
        Fault {
            refusal: self,
            left: rest.len(),
        }
    }

    // Its number of the table of refusals.
    pub fn number(self) -> u32
        ensures { result ≡ number_of self }
    {
        self as u32
    }

    pub(crate) fn layer(self) -> Layer
        ensures { result ≡ layer_of self }
    {
        match self {
            Refusal::BadValue | Refusal::JobRefused => Layer::Field,
            Refusal::ListFull => Layer::Pool,
            _ => Layer::Text,
        }
    }
}

impl Layer {
    ghost use Rattle.text.specs.FaultLine.{layer_text};

    // no `Display`, which would write to a `fmt::Write`: a sink takes bytes, and putting them cannot fail
    pub(crate) fn word(self) -> &'static [u8]
        ensures { result.now ≡ layer_text self }
    {
        match self {
            Layer::Text => b"text",
            Layer::Field => b"field",
            Layer::Pool => b"pool",
        }
    }
}
