// What a head register is: one number that sixteen processors read and raise, one access of the shared memory at a time.
ghost use Rattle.std.specs.Prelude.{◌≡◌, ℕ};
ghost use Rattle.registers.specs.Model.{Model, Plain, Strict, Told, Reads, Writes, Steps};

use crate::answers::{Became, Refusal};

pub trait HeadRegister: Sized {
    // the largest number that can be written
    const BOUND: u32;

    // the most accesses of a read, and of a write
    const READ_ACCESSES: u32;

    const WRITE_ACCESSES: u32;

    // the same three in clauses
    ghost BOUND: { ℕ };

    ghost READ_ACCESSES: { ℕ };

    ghost WRITE_ACCESSES: { ℕ };

    // what it means, and what its calls make of it
    ghost model: { Model Self };

    // A new register: every processor is idle, floors and ceiling are 1.
    fn fresh() -> Self
        ensures { model.starts result };

    // Begins a read, without an access: 13, 14.
    fn begin_read(&mut self, processor: u32) -> Result<(), Refusal>
        ensures { Reads model self.old processor result self.new };

    // Begins a write of n, without an access: 13, 14, 15.
    fn begin_write(&mut self, processor: u32, n: u32) -> Result<(), Refusal>
        ensures { Writes model self.old processor n result self.new };

    // The next access of the processor's operation: 13, 16.
    fn step(&mut self, processor: u32) -> Result<Became, Refusal>
        ensures { Steps model self.old processor result self.new };

    // what every register proves, laws by their place below the last function: its constants are what its model states,
    // and its model keeps the plain meaning
    ghost told: { Told model.stated (record { bound = BOUND; read = READ_ACCESSES; write = WRITE_ACCESSES }) };

    ghost plain: { Plain model };
}

// A head register with a level: the largest of its floors is the floor of every idle processor.
pub trait StrictHeadRegister: HeadRegister {
    // Nothing is done: the promise is what this is for.
    fn keeps_level()
        ensures { Strict Self.HeadRegister.model };
}
