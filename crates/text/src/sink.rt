// What takes things one after another.
ghost use Rattle.std.specs.Prelude.{List, [], ◌∷◌};
ghost use Rattle.text.specs.Sink.{Laws};

pub trait Sink<T> {
    // one state, what came, and the state after it
    ghost took: { Self → List T → Self → Type 0 };

    ghost laws: { Laws took };

    fn put(&mut self, x: T)
        ensures { took self.old (x ∷ []) self.new };
}

#[derive(Drop)]
pub struct Counter {
    pub n: usize,
}

// A lent buffer and how far it is filled: the device side has no heap, so no `Vec` grows here.
#[derive(Drop)]
pub struct Buffer<'a, T> {
    pub out: &'a mut [T],
    pub at: usize,
}
