// Head registers: one number that up to sixteen processors read and raise, one access of the shared memory at a time.
//
// `register` has the two traits: what every head register is, and what a strict one is besides. `word` and `range` are
// two registers. `operations` has what registers share: which operation each processor is at, how it begins and is taken,
// and the refusals.
// Begin in `specs/Meaning.antt`, which says what a register means to the processors, and `specs/Model.antt`, which
// says what its calls owe to that meaning.
#![tactic(auto)]

pub mod answers;
pub mod operations;
pub mod promises;
pub mod range;
pub mod range_state;
pub mod register;
pub mod single;
pub mod word;
pub mod word_state;
