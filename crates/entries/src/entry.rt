// What a processor was asked to do.
#[derive(Clone, Copy, PartialEq, Eq, Debug)]
pub enum Call {
    // the owner adds a job
    Put,
    // the owner removes a job
    Take,
    // a thief removes a job
    Steal,
}

// What is known of one operation. A stamp is the number of an accepted call, from 1 to 65,535;
// each number is 0 until it is set. It is no `Option`, since a page shows 0 there: `None` and `Some(0)` would be
// two entries for one line, and what is written would not be what is read.
#[derive(Clone, Copy, PartialEq, Eq, Debug)]
pub struct Entry {
    pub processor: u32,
    pub call: Call,
    // the stamp of the begin
    pub from: u32,
    // the stamp at which a put wrote its job, or a take or steal ended its read of the head register
    pub mark: u32,
    // the stamp of the last access
    pub to: u32,
    pub task: u32,
    // the two numbers of the job
    pub first: u32,
    pub second: u32,
}
