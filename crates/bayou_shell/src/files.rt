//! Inputs that have a name.
ghost use Rattle.std.specs.Prelude.{ℕ, Bool, IfErr, IfOk, List};

use bayou_streams::CountedChannel;
use std::alloc::Global;
use std::io;
use std::io::Read;

/// Where inputs that have a name are opened.
pub trait Files {
    type Reader: Read + Drop;

    /// Whether opening the file of this name may give this reader.
    ghost opens: { List ℕ → Self.Reader → Type 0 };

    /// Whether the file of this name may be refused.
    ghost refuses: { List ℕ → Type 0 };

    /// Whether reading stands so of the file that was given back last: whether a call of it failed, and how many turns are left.
    ghost kept: { Self → Bool → ℕ → Type 0 };

    /// Opens the file of this name, to be read from its beginning.
    fn open(&mut self, alloc: Global, name: &str) -> Result<Self::Reader, io::Error>
        ensures opened { IfOk result (opens name.now) }
        ensures refused { IfErr result (λ error. refuses name.now) };

    /// Is given the file back that was opened, as far as it was read.
    fn keep(&mut self, file: CountedChannel<Self::Reader, ()>)
        ensures { kept self.new file.read_failed file.turns_left };
}
