//! What the pages are about.
ghost use Rattle.std.specs.Prelude.{ℕ, List, MatchResult, Option, None, Some};

use std::alloc::{AllocError, Global};

/// What the pages show and change. Either call may end for want of memory, and may have done its work then.
pub trait PageDesk {
    /// Before, what was asked for, the text that shows it, or none for want of memory, and after.
    ghost shows: { Self → List ℕ → Option (List ℕ) → Self → Type 0 };

    /// Before, the line, the text that says what became of it, or none for want of memory, and after.
    ghost does: { Self → List ℕ → Option (List ℕ) → Self → Type 0 };

    /// A text of JSON with what is to be seen of the keys that begin so.
    fn show(&mut self, alloc: Global, prefix: &str) -> Result<Vec<u8>, AllocError>
        ensures { MatchResult result (λ text. shows self.old prefix.now (Some text.items) self.new) (λ _. shows self.old prefix.now None self.new) };

    /// Does what a line says: a text of JSON with what became of that.
    fn act(&mut self, alloc: Global, line: &str) -> Result<Vec<u8>, AllocError>
        ensures { MatchResult result (λ text. does self.old line.now (Some text.items) self.new) (λ _. does self.old line.now None self.new) };
}
