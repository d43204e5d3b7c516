/// A failure to come: the `calls`-th device call from now fails, and if it is an append, the first `kept` bytes of its
/// piece are added, or all if it is shorter.
#[derive(Clone, Copy, Debug, PartialEq, Eq)]
pub struct Fuse {
    pub calls: u32,
    pub kept: usize,
}
