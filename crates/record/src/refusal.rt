// Why a page is not written; each case has its number of the table of refusals. A page is looked at
// whole for each case before the next, in this order.
#[derive(Clone, Copy, PartialEq, Eq, Debug)]
pub enum WriteRefusal {
    // 23: a number to be shown is outside its range
    OutOfRange,
    // 25: the job type refuses the numbers of a job to be shown
    JobRefused,
    // 19: the page has more than 32,768 bytes
    PageTooLong,
    // 18: the buffer is too short for the page
    BufferTooShort,
}
