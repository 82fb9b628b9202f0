ghost use Rattle.std.specs.Prelude.{◌≤◌};

use crate::walk::Walk;

// A write of n at its node on a level, after so many accesses.
#[derive(Clone, Copy)]
pub(crate) struct Way {
    pub(crate) n: u32,
    pub(crate) level: u32,
    pub(crate) done: u32,
    ghost low: { 1 ≤ n },
    ghost high: { n ≤ 128 },
    ghost few: { level ≤ 7 },
}

impl Way {
    ghost use Rattle.std.specs.Prelude.{◌≡◌, ◌-◌, ◌%◌, ◌==◌};
    ghost use Rattle.trees.specs.Fits.{Looker};
    ghost use Rattle.trees.specs.Switches.{switch};
    ghost use Rattle.trees.specs.Walks.{node as node_of, rise as rise_of, fall as fall_of, climb as climb_of, descend as descend_of, goes_on};
    ghost use Rattle.trees.specs.declared.walk.Walk.TheVariants.{Looking};

    // The node on the way to the leaf of n at a level: the leaf's number is the seven bits of n - 1 behind a 1.
    pub(crate) fn node(self, level: u32) -> u32
        requires { level ≤ 7 }
        ensures { result ≡ node_of self.n level }
    {
        (self.n + 127) >> level
    }

    // Whether the node at a level lies on the on side of the switch above.
    fn is_on_side(self, level: u32) -> bool
        requires { level ≤ 7 }
        ensures { result ≡ (node_of self.n level % 2 == 1) }
    {
        self.node(level) & 1 == 1
    }

    // The level of the first node, from its own up, on the on side of its switch; the top where there is none.
    fn rise(self) -> u32
        ensures { result ≡ rise_of self.n self.level (7 - self.level) }
    {
        (self.level..7)
            .find(|level| self.is_on_side(*level))
            .unwrap_or(7)
    }

    // The level of the first switch, from its own down, that it leaves by the off side; 0 where there is none.
    fn fall(self) -> u32
        ensures { result ≡ fall_of self.n self.level }
    {
        (0..self.level)
            .rev()
            .find(|below| !self.is_on_side(*below))
            .map_or(0, |below| below + 1)
    }

    // On its way up it has a switch to set, or it ends.
    #[tactic(auto, unfolding(crate::specs::Walks::climb))]
    pub(crate) fn climb(self) -> Option<Walk>
        ensures { result ≡ climb_of self.n self.level self.done }
    {
        let Way { n, done, .. } = self;
        let level = self.rise();
        (level < 7).then_some(Walk::Setting { n, level, done })
    }

    // On its way down it has a switch to look at, or it turns.
    #[tactic(auto, unfolding(crate::specs::Walks::descend))]
    pub(crate) fn descend(self) -> Option<Walk>
        ensures { result ≡ descend_of self.n self.level self.done }
    {
        let Way { n, done, .. } = self;
        let level = self.fall();
        if level == 0 {
            Way { n, level, done }.climb()
        } else {
            Some(Walk::Looking { n, level, done })
        }
    }

    // It looks at the switch of its node: it turns where the switch is on, and else goes on down.
    pub(crate) fn look(self, switches: &[bool; 128]) -> Option<Walk>
        requires { Looker self.n self.level self.done }
        ensures { result ≡ goes_on (Looking self.n self.level self.done) (switch switches.now (node_of self.n self.level)) }
    {
        let Way { n, level, done } = self;
        let done = done + 1;
        if switches[self.node(level) as usize] {
            let turned = Way { n, level, done };
            turned.climb()
        } else {
            let level = level - 1;
            Way { n, level, done }.descend()
        }
    }
}
