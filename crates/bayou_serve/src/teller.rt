//! What a server that lives tells beside what it prints.

use std::alloc::AllocError;
use std::io::Write;
use std::sync::{Mutex, Wait};

/// Where threads tell whole lines: each is one write, behind one lock. No clause can say what stands there: others tell there too.
#[derive(Drop)]
pub struct Teller<E>(Mutex<E>);

impl<E: Write> Teller<E> {
    /// Tells there.
    pub fn new(errors: E) -> Self {
        Teller(Mutex::new(errors))
    }

    /// Tells a line, as far as it can be written.
    pub fn tell<T: Wait>(&self, rt: &T, line: &str) {
        // Where it can't be reported nothing else is to be done.
        let _ = self.0.lock(rt).write_all(line.as_bytes());
    }

    /// Tells the line that was made. Where memory ran out there is none.
    pub(crate) fn tell_made<T: Wait>(&self, rt: &T, made: Result<String, AllocError>) {
        if let Ok(line) = made {
            self.tell(rt, line.as_str());
        }
    }
}
