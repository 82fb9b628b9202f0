// Why a head register refuses a call; each case has its number of the table of refusals.
#[derive(Clone, Copy, PartialEq, Eq, Debug)]
pub enum Refusal {
    // 13: the processor is above 15
    NoSuchProcessor = 13,
    // 14: a begin while the processor is busy
    Busy = 14,
    // 15: the number to write is not 1 to the bound
    OutOfRange = 15,
    // 16: a step while the processor is idle
    Idle = 16,
}

// What a step made of the processor's operation.
#[derive(Clone, Copy, PartialEq, Eq, Debug)]
pub enum Became {
    // it goes on, one access further
    Going,
    // a read ended, with this number
    Read(u32),
    // a write ended
    Written,
}
