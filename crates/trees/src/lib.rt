// The tree of switches as a head register: 127 switches of the shared memory, each off or on, keep the largest of 128
// numbers that was written. A read looks at seven of them, a write looks at some and sets some.
//
// `walk` has what an operation is about to do and what its next access makes of it, `way` a write on its way to its leaf,
// `tree_state` what the tree holds, `tree` the register, and `cases` the worked cases. Begin in `specs/Switches.antt` and
// `specs/Walks.antt`; `specs/TreeLaw.antt` has the law.
#![tactic(auto)]

pub mod cases;
pub mod promises;
pub mod tree;
pub mod tree_state;
pub mod walk;
pub mod way;
