// An operation that is one access, begun and not yet made. It is kept between two calls, so it is no closure: that would
// need a heap.
#[derive(Clone, Copy)]
pub enum Single {
    Read,
    Write(u32),
}
