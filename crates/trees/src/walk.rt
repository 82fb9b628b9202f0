use crate::way::Way;
use registers::answers::Became;

// An operation at the tree of switches, by its next access. It is no closure, since it is kept between two calls, and there
// is no heap. A level counts from the leaves, which have level 0, up to the top, which has level 7; `done` counts a write's
// accesses so far. The variants of a write have the fields of a `Way`, and not a `Way`: with its ghost fields inside, each
// definition of specs/ that makes a walk would have to prove them.
#[derive(Clone, Copy)]
pub enum Walk {
    // a read, about to look at the switch of this node, with so many switches left to look at
    Reading { node: u32, left: u32 },
    // a write of n on its way down, about to look at the switch of its node at this level
    Looking { n: u32, level: u32, done: u32 },
    // a write of n on its way up, about to set the switch above its node at this level
    Setting { n: u32, level: u32, done: u32 },
}

// What an access made of a walk: what its step says, and how it goes on.
#[derive(Clone, Copy)]
pub(crate) struct Outcome {
    pub(crate) became: Became,
    pub(crate) next: Option<Walk>,
}

impl Walk {
    ghost use Rattle.std.specs.Prelude.{◌≡◌, ◌<◌, ◌≤◌, Some};
    ghost use Rattle.trees.specs.Fits.{Fit};
    ghost use Rattle.trees.specs.Switches.{switch};
    ghost use Rattle.trees.specs.Walks.{next, switches_after, seen, goes_on, walk_answer, write_answer};
    ghost use Rattle.trees.specs.declared.walk.Walk.TheVariants.{Reading};

    // The next access: what it leaves of the switches, and what it makes of the walk.
    pub(crate) fn access(self, switches: &mut [bool; 128]) -> Outcome
        requires { Fit switches.old (Some self) }
        ensures switches { switches.new ≡ switches_after (next self) switches.old }
        ensures became { result.became ≡ walk_answer self (seen (next self) switches.old) }
        ensures next { result.next ≡ goes_on self (seen (next self) switches.old) }
    {
        match self {
            Walk::Reading { node, left } => Walk::read(switches, node, left),
            Walk::Looking { n, level, done } => {
                Walk::written(Way { n, level, done }.look(switches))
            }
            Walk::Setting { n, level, done } => {
                let (level, done) = (level + 1, done + 1);
                let above = Way { n, level, done };
                switches[above.node(level) as usize] = true;
                Walk::written(above.climb())
            }
        }
    }

    // A read that looks at the switch of its node.
    fn read(switches: &[bool; 128], node: u32, left: u32) -> Outcome
        requires { (node < 128) × (left ≤ 1 → 64 ≤ node) }
        ensures became { result.became ≡ walk_answer (Reading node left) (switch switches.now node) }
        ensures next { result.next ≡ goes_on (Reading node left) (switch switches.now node) }
    {
        let below = if switches[node as usize] {
            2 * node + 1
        } else {
            2 * node
        };
        if left > 1 {
            Outcome {
                became: Became::Going,
                next: Some(Walk::Reading {
                    node: below,
                    left: left - 1,
                }),
            }
        } else {
            Outcome {
                became: Became::Read(below - 127),
                next: None,
            }
        }
    }

    // How a write's step ends: the write has ended where nothing is left to do.
    fn written(next: Option<Walk>) -> Outcome
        ensures became { result.became ≡ write_answer next }
        ensures next { result.next ≡ next }
    {
        let became = if next.is_some() {
            Became::Going
        } else {
            Became::Written
        };
        Outcome { became, next }
    }
}
