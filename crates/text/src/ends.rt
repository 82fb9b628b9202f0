// The two sinks: one counts, one fills a lent buffer.
ghost use Rattle.text.specs.Ends.{Counted, Filled, counted_laws, filled_laws};

use crate::sink::{Buffer, Counter, Sink};

impl<T: Drop> Sink<T> for Counter {
    ghost took = { Counted };

    ghost laws = { counted_laws };

    fn put(&mut self, _x: T) {
        self.n = self.n.saturating_add(1);
    }
}

impl<'a, T: Drop> Sink<T> for Buffer<'a, T> {
    ghost took = { Filled };

    ghost laws = { filled_laws };

    fn put(&mut self, x: T) {
        if self.at < self.out.len() {
            self.out[self.at] = x;
            self.at += 1;
        }
    }
}
