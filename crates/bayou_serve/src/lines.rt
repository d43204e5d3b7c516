//! The lines that a server that lives tells beside what it prints.
ghost use Rattle.std.specs.Prelude.{◌≡◌, IfOk, string_bytes};
ghost use Rattle.bayou_serve.specs.Told.{holds_text, news_text, reopened_text};

use crate::plan::Peer;
use crate::visit::News;
use bayou_base::Wid;
use bayou_peer::Pulled;
use bayou_print::pulling_word;
use std::alloc::{AllocError, Global};

/// The line of news of a peer.
pub(crate) fn news_line(alloc: Global, peer: Peer, news: &News) -> Result<String, AllocError>
    ensures { IfOk result (λ line. string_bytes line ≡ news_text peer news.now) }
{
    let (id, address) = (peer.id.index, peer.address);
    match news {
        News::Away => format!(in alloc; "bayou: peer {id} at {address} away\n"),
        News::Reached(Pulled { taken, had }) => {
            format!(in alloc; "bayou: peer {id} reached pulled {taken} had {had}\n")
        }
        News::Pulled(Pulled { taken, had }) => {
            format!(in alloc; "bayou: peer {id} pulled {taken} had {had}\n")
        }
        News::Failed(fault) => {
            let why = pulling_word(fault);
            format!(in alloc; "bayou: peer {id} pull fault {why}\n")
        }
    }
}

/// The line of a server that was down and is up, and of the Write in doubt that it adopted, if it did.
pub(crate) fn reopened_line(alloc: Global, adopted: Option<Wid>) -> Result<String, AllocError>
    ensures { IfOk result (λ line. string_bytes line ≡ reopened_text adopted) }
{
    match adopted {
        None => String::from_str(alloc, "bayou: reopened adopted none\n"),
        Some(wid) => {
            let (origin, seq) = (wid.origin.index, wid.seq);
            format!(in alloc; "bayou: reopened adopted {origin}:{seq}\n")
        }
    }
}

/// The line of a server that fills up.
pub(crate) fn holds_line(alloc: Global, held: u32, limit: u32) -> Result<String, AllocError>
    ensures { IfOk result (λ line. string_bytes line ≡ holds_text held limit) }
{
    format!(in alloc;
        "bayou: holds {held} of {limit} writes; then raise --limit, or make a new store with bayou renew\n"
    )
}
