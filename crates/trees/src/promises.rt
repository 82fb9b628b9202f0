// What holds of every tree of switches, whatever its processors do.
ghost use Rattle.trees.specs.Bits.{WritesByBits};

// Nothing is done: a write goes by the bits of its number, and sets what it passed, deepest first.
pub fn writes_by_bits()
    ensures { WritesByBits }
{}
