//! Whether a Write may follow those that are held.
ghost use Rattle.std.specs.Prelude.{◌≡◌, ℕ, ◌+◌, ◌<◌, ◌↔◌, IsTrue, slice_index};
ghost use Rattle.bayou_base.specs.Vector.{Dominates};

use bayou_base::Vector;
use bayou_lang::RestingWrite;

/// Why a Write may not follow those that are held.
#[derive(Clone, Copy, Debug, PartialEq, Eq)]
pub enum Misfit {
    /// A Write before it is missing, or its origin is none of the servers.
    Gap,
    /// None is missing, but its server didn't hold all of its own before it, or its clock isn't one more than the
    /// greatest that its server held.
    BadStamp,
}

/// Whether it is of one of the servers, the next of its origin's, and all that its server held is counted.
pub(crate) fn is_next(write: &RestingWrite, count: u8, held: &Vector) -> bool
    ensures { IsTrue result ↔ ((write.now.wid.origin.index < count)
        × (write.now.wid.seq ≡ slice_index held.now write.now.wid.origin.index + 1) × Dominates held.now write.now.deps) }
{
    let wid = write.wid();
    wid.origin.index < count && wid.seq == held.get(wid.origin) + 1 && held.dominates(write.deps())
}
