ghost use Rattle.std.specs.Prelude.{◌≡◌, ℕ, ◌≤◌, length};
ghost use Rattle.registers.specs.Operations.{at};
ghost use Rattle.trees.specs.Fits.{Capped, ceiling, Fit, fits_prop};

use crate::walk::Walk;

// What a tree holds: its switches by the number of their node, and the operation of each processor. Node 1 is the top,
// below node k lie 2 k and 2 k + 1, and there is no node 0.
#[derive(Clone, Copy)]
pub struct TreeState {
    pub(crate) on: [bool; 128],
    pub(crate) operations: [Option<Walk>; 16],
}

// A tree of switches as a head register.
#[derive(Clone, Copy)]
pub struct Tree {
    pub(crate) state: TreeState,
    ghost sixteen: { length state.operations ≡ 16 },
    ghost wide: { length state.on ≡ 128 },
    ghost bounded: { ceiling state.on state.operations ≤ 128 },
    ghost capped: { Capped state.on (ceiling state.on state.operations) },
    ghost fit: { (p : ℕ) → Fit state.on (at state.operations p) } by { fits_prop state.on state.operations },
}
