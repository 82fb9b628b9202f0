ghost use Rattle.std.specs.Prelude.{refl};
ghost use Rattle.trees.specs.Tree.{tree_model};
ghost use Rattle.trees.specs.TreeLaw.{tree_plain};

use crate::tree_state::{Tree, TreeState};
use crate::walk::{Outcome, Walk};
use crate::way::Way;
use registers::answers::{Became, Refusal};
use registers::operations::{begin_read, check_write, find_under_way};
use registers::register::{HeadRegister, StrictHeadRegister};

impl HeadRegister for Tree {
    const BOUND: u32 = 128;

    const READ_ACCESSES: u32 = 7;

    const WRITE_ACCESSES: u32 = 7;

    ghost BOUND = { 128 };

    ghost READ_ACCESSES = { 7 };

    ghost WRITE_ACCESSES = { 7 };

    ghost model = { tree_model };

    ghost told = { record { bound = refl; read = refl; write = refl } };

    ghost plain = { tree_plain };

    fn fresh() -> Self {
        Tree {
            state: TreeState {
                on: [false; 128],
                operations: [None; 16],
            },
        }
    }

    fn begin_read(&mut self, processor: u32) -> Result<(), Refusal> {
        let read = Walk::Reading { node: 1, left: 7 };
        begin_read(&mut self.state.operations, processor, read)
    }

    fn begin_write(&mut self, processor: u32, n: u32) -> Result<(), Refusal> {
        // the check stands apart from the begin, since the way of n is there only for an n in range
        check_write(&self.state.operations, processor, n, Self::BOUND)?;
        let top = Way {
            n,
            level: 7,
            done: 0,
        };
        self.state.operations[processor as usize] = top.descend();
        Ok(())
    }

    fn step(&mut self, processor: u32) -> Result<Became, Refusal> {
        let walk = find_under_way(&self.state.operations, processor)?;
        let Outcome { became, next } = walk.access(&mut self.state.on);
        self.state.operations[processor as usize] = next;
        Ok(became)
    }
}

impl StrictHeadRegister for Tree {
    fn keeps_level() {}
}
