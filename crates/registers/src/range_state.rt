ghost use Rattle.std.specs.Prelude.{◌≡◌, ◌≤◌, length};
ghost use Rattle.registers.specs.Most.{greatest};
ghost use Rattle.registers.specs.Operations.{most_asked};
ghost use Rattle.registers.specs.Single.{single_op};

use crate::single::Single;

// What a range holds: the word R that all share, each processor's own number, and the operation of each. The operations
// are an array of their own, apart from the own numbers, since one function decides the refusals of every register by it.
#[derive(Clone, Copy)]
pub struct RangeState {
    pub(crate) shared: u32,
    pub(crate) own: [u32; 16],
    pub(crate) operations: [Option<Single>; 16],
}

// A word R of the shared memory and an own number for each processor as a head register: each operation is one access.
#[derive(Clone, Copy)]
pub struct Range {
    pub(crate) state: RangeState,
    ghost sixteen: { length state.operations ≡ 16 },
    ghost owners: { length state.own ≡ 16 },
    ghost owned: { state.shared ≤ greatest state.own },
    ghost held: { greatest state.own ≤ 256 },
    ghost asked: { most_asked single_op state.operations ≤ 256 },
}
