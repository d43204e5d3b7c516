//! How far rows are put, as it is shown at a terminal.
ghost use Rattle.std.specs.Prelude.{◌≡◌, ◌∷◌, ◌++◌, ◌*◌, IfErr, IfOk, Ok, codes, false, decimal, string_bytes};
ghost use Rattle.bayou_connect.specs.declared.fault.ConnectFault.TheVariants.{Memory};

use crate::deadline::milliseconds;
use crate::fault::ConnectFault;
use std::alloc::{AllocError, Global};
use std::io::Write;
use std::time::Clock;

/// How long one telling stands.
const PERIOD_MILLISECONDS: u64 = 1_000;

/// What clears the line of a terminal.
const CLEAR: &str = "\r\x1b[K";

/// What is reported of how far rows are put.
#[derive(Debug, Drop)]
pub(crate) struct PutProgress {
    is_terminal: bool,
    /// How many rows there are.
    of: usize,
    /// From when on it is shown again.
    next: u64,
    /// Whether a line of it stands there.
    is_shown: bool,
}

// The line that is shown.
fn progress_line(alloc: Global, done: usize, of: usize) -> Result<String, AllocError>
    ensures { IfOk result (λ line. string_bytes line ≡ 13 ∷ codes "bayou: " ++ (decimal done ++ (codes " of " ++ (decimal of ++ codes " keys")))) }
{
    format!(in alloc; "\rbayou: {done} of {of} keys")
}

impl PutProgress {
    /// Nothing is shown yet.
    pub(crate) fn new<T: Clock>(rt: &T, is_terminal: bool, of: usize) -> Self
        ensures { (result.is_terminal ≡ is_terminal) × (result.of ≡ of) }
    {
        PutProgress {
            is_terminal,
            of,
            next: milliseconds(rt).saturating_add(PERIOD_MILLISECONDS),
            is_shown: false,
        }
    }

    /// Shows at a terminal, as far as it can, how many rows are put, unless it did so within the last second.
    pub(crate) fn tell<T: Clock, E: Write>(
        &mut self,
        rt: &T,
        alloc: Global,
        errors: &mut E,
        done: usize,
    ) -> Result<(), ConnectFault>
        ensures silent { self.old.is_terminal ≡ false → (result ≡ Ok tt) × (self.new ≡ self.old) × (errors.new ≡ errors.old) }
        ensures same { (self.new.is_terminal ≡ self.old.is_terminal) × (self.new.of ≡ self.old.of) }
        ensures fault { IfErr result (λ fault. fault ≡ Memory) }
    {
        let now = milliseconds(rt);
        if !self.is_terminal || now < self.next {
            return Ok(());
        }
        self.next = now.saturating_add(PERIOD_MILLISECONDS);
        self.is_shown = true;
        let line = progress_line(alloc, done, self.of)?;
        let _ = errors.write_all(line.as_bytes());
        let _ = errors.flush();
        Ok(())
    }

    /// Clears what is shown, so that what comes next stands on a line of its own.
    pub(crate) fn clear<E: Write>(&mut self, errors: &mut E)
        ensures cleared { self.new ≡ record self.old { is_shown = false } }
        ensures silent { self.old.is_shown ≡ false → errors.new ≡ errors.old }
    {
        if self.is_shown {
            self.is_shown = false;
            let _ = errors.write_all(CLEAR.as_bytes());
        }
    }
}
