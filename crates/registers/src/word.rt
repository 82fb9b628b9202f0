ghost use Rattle.std.specs.Prelude.{refl};
ghost use Rattle.registers.specs.Word.{word_model};
ghost use Rattle.registers.specs.WordLaw.{word_plain};

use crate::answers::{Became, Refusal};
use crate::operations::{begin_read, begin_write, take_under_way};
use crate::register::{HeadRegister, StrictHeadRegister};
use crate::single::Single;
use crate::word_state::{Word, WordState};

impl HeadRegister for Word {
    const BOUND: u32 = 256;

    const READ_ACCESSES: u32 = 1;

    const WRITE_ACCESSES: u32 = 1;

    ghost BOUND = { 256 };

    ghost READ_ACCESSES = { 1 };

    ghost WRITE_ACCESSES = { 1 };

    ghost model = { word_model };

    ghost told = { record { bound = refl; read = refl; write = refl } };

    ghost plain = { word_plain };

    fn fresh() -> Self {
        Word {
            state: WordState {
                number: 1,
                operations: [None; 16],
            },
        }
    }

    fn begin_read(&mut self, processor: u32) -> Result<(), Refusal> {
        begin_read(&mut self.state.operations, processor, Single::Read)
    }

    fn begin_write(&mut self, processor: u32, n: u32) -> Result<(), Refusal> {
        let write = Single::Write(n);
        begin_write(&mut self.state.operations, processor, n, Self::BOUND, write)
    }

    fn step(&mut self, processor: u32) -> Result<Became, Refusal> {
        let operation = take_under_way(&mut self.state.operations, processor)?;
        match operation {
            Single::Read => Ok(Became::Read(self.state.number)),
            Single::Write(n) => {
                self.state.number = self.state.number.max(n);
                Ok(Became::Written)
            }
        }
    }
}

impl StrictHeadRegister for Word {
    fn keeps_level() {}
}
