/// What a device in memory passes before each append: a test may hold it there.
pub trait Gate: Drop {
    /// Returns when the append may go on, to a device that holds so many bytes.
    fn pass(&self, held: usize);
}

/// A gate that holds nobody.
#[derive(Clone, Copy, Debug)]
pub struct OpenGate;

impl Gate for OpenGate {
    fn pass(&self, _held: usize) {}
}
