ghost use Rattle.std.specs.Prelude.{refl};
ghost use Rattle.registers.specs.Range.{range_model};
ghost use Rattle.registers.specs.RangeLaw.{range_plain};

use crate::answers::{Became, Refusal};
use crate::operations::{begin_read, begin_write, take_under_way};
use crate::range_state::{Range, RangeState};
use crate::register::HeadRegister;
use crate::single::Single;

impl HeadRegister for Range {
    const BOUND: u32 = 256;

    const READ_ACCESSES: u32 = 1;

    const WRITE_ACCESSES: u32 = 1;

    ghost BOUND = { 256 };

    ghost READ_ACCESSES = { 1 };

    ghost WRITE_ACCESSES = { 1 };

    ghost model = { range_model };

    ghost told = { record { bound = refl; read = refl; write = refl } };

    ghost plain = { range_plain };

    fn fresh() -> Self {
        Range {
            state: RangeState {
                shared: 1,
                own: [1; 16],
                operations: [None; 16],
            },
        }
    }

    fn begin_read(&mut self, processor: u32) -> Result<(), Refusal> {
        begin_read(&mut self.state.operations, processor, Single::Read)
    }

    fn begin_write(&mut self, processor: u32, n: u32) -> Result<(), Refusal> {
        let write = Single::Write(n);
        begin_write(&mut self.state.operations, processor, n, Self::BOUND, write)
    }

    fn step(&mut self, processor: u32) -> Result<Became, Refusal> {
        let operation = take_under_way(&mut self.state.operations, processor)?;
        let own = self.state.own[processor as usize];
        match operation {
            Single::Read => {
                let seen = own.max(self.state.shared);
                self.state.own[processor as usize] = seen;
                Ok(Became::Read(seen))
            }
            Single::Write(n) => {
                if n > own {
                    self.state.shared = n;
                    self.state.own[processor as usize] = n;
                }
                Ok(Became::Written)
            }
        }
    }
}
