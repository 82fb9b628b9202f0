// Worked cases of the registers.
ghost use Rattle.trees.specs.Cases.{Cases};

// Nothing is done: the relations that the calls of the tree and of the range promise give the worked cases.
pub fn cases_hold()
    ensures { Cases }
{}
