//! Lines that a line with a fault may be meant as.
ghost use Rattle.std.specs.Prelude.{IsOk, string_bytes};
ghost use Rattle.bayou_text.specs.Lines.{line_of};

use bayou_text::{LineFault, read_line};
use std::alloc::{AllocError, Global};

/// A line that is read.
#[derive(Debug, Drop)]
pub struct Meant {
    pub line: String,
    pub ghost read: { IsOk (line_of (string_bytes line)) },
}

impl Meant {
    ghost use Rattle.std.specs.Prelude.{◌≡◌, IfOk, IfSome};

    /// The line, if it is read.
    pub(crate) fn of(alloc: Global, line: String) -> Result<Option<Meant>, AllocError>
        ensures { IfOk result (λ meant. IfSome meant (λ meant. meant.line ≡ line)) }
    {
        match read_line(alloc, line.as_bytes()) {
            Ok(_) => Ok(Some(Meant { line })),
            Err(LineFault::OutOfMemory) => Err(AllocError),
            Err(_) => Ok(None),
        }
    }
}
