/// What stands between a request that was read and what is done of it: a test may hold it there.
pub trait RequestGate: Drop {
    /// Returns when the request may be done.
    fn pass(&self);
}

/// A gate that holds nobody.
#[derive(Clone, Copy, Debug)]
pub struct NoGate;

impl RequestGate for NoGate {
    fn pass(&self) {}
}
