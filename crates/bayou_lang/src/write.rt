ghost use Rattle.std.specs.Prelude.{◌≡◌};

use crate::program::Program;
use bayou_base::{Stamp, Vector, Wid};

/// A Write (Terry et al. 1995): its name, its stamp, what its server held as it accepted it, and its program.
#[derive(Debug, Drop, PartialEq, Eq)]
pub struct Write {
    pub wid: Wid,
    pub stamp: Stamp,
    pub deps: Vector,
    pub program: Program,
    pub ghost one_origin: { wid.origin ≡ stamp.origin },
}

impl Write {
    /// The same Write again, which takes no memory.
    pub fn copy(&self) -> Self
        ensures { result ≡ self.now }
    {
        Write {
            wid: self.wid,
            stamp: self.stamp,
            deps: self.deps,
            program: self.program.copy(),
        }
    }
}
