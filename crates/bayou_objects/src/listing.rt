//! The log of a server, an object for each of its Writes.
ghost use Rattle.std.specs.Prelude.{◌≡◌, IfOk, string_bytes};
ghost use Rattle.bayou_objects.specs.Laws.Ends.{listed_ends};
ghost use Rattle.bayou_objects.specs.Objects.{listed_json, listed_members, outcome_members};

use crate::object::object;
use bayou_base::ServerId;
use bayou_lang::Outcome;
use bayou_log::Listed;
use bayou_print::Printer;
use std::alloc::{AllocError, Global};

/// What became of a Write; alternatives are counted from 0 on.
fn became(alloc: Global, outcome: Outcome) -> Result<String, AllocError>
    ensures { IfOk result (λ text. string_bytes text ≡ outcome_members outcome) }
{
    match outcome {
        Outcome::Updated => {
            String::from_str(alloc, "\"outcome\":\"updated\",\"alternative\":null")
        }
        Outcome::Merged(index) => {
            format!(in alloc; "\"outcome\":\"merged\",\"alternative\":{index}")
        }
        Outcome::Nothing => {
            String::from_str(alloc, "\"outcome\":\"nothing\",\"alternative\":null")
        }
    }
}

/// The members of a Write in the log of a server.
fn listed(alloc: Global, server: ServerId, listed: &Listed) -> Result<String, AllocError>
    ensures { IfOk result (λ text. string_bytes text ≡ listed_members server.index listed.now) }
{
    let server = server.index;
    let (origin, seq) = (listed.wid.origin.index, listed.wid.seq);
    let clock = listed.stamp.clock;
    let outcome = became(alloc, listed.outcome)?;
    format!(in alloc; "\"server\":{server},\"wid\":[{origin},{seq}],\"clock\":{clock},{outcome}")
}

/// The log of a server.
#[derive(Clone, Copy)]
pub(crate) struct ListingObjects {
    pub server: ServerId,
}

impl Printer for ListingObjects {
    type Part = Listed;

    ghost text = { λ listing listed. listed_json listing.server.index listed };

    fn line(&self, alloc: Global, part: &Listed) -> Result<String, AllocError> {
        object(alloc, "listed", listed(alloc, self.server, part)?)
    }

    ghost ends = { λ listing listed. listed_ends listing.server.index listed };
}
