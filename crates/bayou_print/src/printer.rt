//! Answers of many lines, a line for each of their parts.
ghost use Rattle.std.specs.Prelude.{◌≡◌, ℕ, IfOk, List, string_bytes};
ghost use Rattle.std.specs.Io.{IsEmptyOrEndsWith};
ghost use Rattle.bayou_print.specs.Printed.{listed_text};
ghost use Rattle.bayou_print.specs.Verdicts.{surveyed_text};
ghost use Rattle.bayou_print.specs.Laws.Ends.{listed_ends, surveyed_ends};

use crate::printed::listed_line;
use crate::verdict::surveyed_line;
use bayou_base::ServerId;
use bayou_judge::Surveyed;
use bayou_log::Listed;
use std::alloc::{AllocError, Global};

/// What has a line for each part of an answer.
pub trait Printer {
    type Part;

    /// The line of the part.
    ghost text: { Self → Self.Part → List ℕ };

    /// The line of the part, with its line feed.
    fn line(&self, alloc: Global, part: &Self::Part) -> Result<String, AllocError>
        ensures { IfOk result (λ line. string_bytes line ≡ text self.now part.now) };

    /// It ends with a line feed.
    ghost ends: { (printer : Self) (part : Self.Part) → IsEmptyOrEndsWith (text printer part) 10 };
}

/// The log of a server.
#[derive(Clone, Copy, Debug)]
pub struct Listing {
    pub server: ServerId,
}

impl Printer for Listing {
    type Part = Listed;

    ghost text = { λ listing listed. listed_text listing.server.index listed };

    fn line(&self, alloc: Global, part: &Listed) -> Result<String, AllocError> {
        listed_line(alloc, self.server, part)
    }

    ghost ends = { λ listing listed. listed_ends listing.server.index listed };
}

/// The survey of all sessions.
#[derive(Clone, Copy, Debug)]
pub struct Survey;

impl Printer for Survey {
    type Part = Surveyed;

    ghost text = { λ survey surveyed. surveyed_text surveyed };

    fn line(&self, alloc: Global, part: &Surveyed) -> Result<String, AllocError> {
        surveyed_line(alloc, part)
    }

    ghost ends = { λ survey surveyed. surveyed_ends surveyed };
}
