/// Which of the four session guarantees (Terry et al. 1994) a session asks for.
#[derive(Clone, Copy, Debug, Default, PartialEq, Eq)]
pub struct Asks {
    /// Read Your Writes.
    pub ryw: bool,
    /// Monotonic Reads.
    pub mr: bool,
    /// Writes Follow Reads.
    pub wfr: bool,
    /// Monotonic Writes.
    pub mw: bool,
}
