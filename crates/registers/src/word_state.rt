ghost use Rattle.std.specs.Prelude.{◌≡◌, ◌≤◌, length};
ghost use Rattle.registers.specs.Operations.{most_asked};
ghost use Rattle.registers.specs.Single.{single_op};

use crate::single::Single;

// What a word holds: its number, and the operation of each processor.
#[derive(Clone, Copy)]
pub struct WordState {
    pub(crate) number: u32,
    pub(crate) operations: [Option<Single>; 16],
}

// A word of the shared memory as a head register: each operation is one access.
#[derive(Clone, Copy)]
pub struct Word {
    pub(crate) state: WordState,
    ghost sixteen: { length state.operations ≡ 16 },
    ghost held: { state.number ≤ 256 },
    ghost asked: { most_asked single_op state.operations ≤ 256 },
}
