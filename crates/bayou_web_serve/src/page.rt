//! Where a page is served, and as whom a person claims.
ghost use Rattle.std.specs.Prelude.{◌≡◌, ◌<◌, ◌↔◌, All, Err, IfOk, IfSome, IsSomeAnd, IsTrue, MatchOption, option_map, string_bytes};
ghost use Rattle.bayou_web_serve.specs.Address.{SaysLoopback, SaysNoLoopback};
ghost use Rattle.bayou_web_serve.specs.Names.{IsName};
ghost use Rattle.bayou_web_serve.specs.declared.page.PageFault.TheVariants.{NoName, NotLoopback};

use std::alloc::{AllocError, Global};
use std::net::SocketAddr;
use thiserror::Error;

/// How many bytes a name has at the most: as many as the text of a value.
const MAX_NAME_BYTES: usize = 32;

/// Where a page is served, and as whom a person claims.
#[derive(Drop)]
pub struct SitePage {
    /// A loopback address: nobody else's machine reaches it.
    pub listen: SocketAddr,
    pub name: Option<String>,
}

/// Why words make no page.
#[derive(Clone, Copy, Debug, PartialEq, Eq, Error)]
pub enum PageFault {
    #[error("--listen takes ADDRESS:PORT, with a loopback address of numbers, as 127.0.0.1:8080")]
    NotLoopback,
    #[error("--name takes a text of 1 to 32 bytes with no spaces")]
    NoName,
    #[error("memory")]
    OutOfMemory,
}

impl From<AllocError> for PageFault {
    ghost use Rattle.std.specs.Prelude.{◌≡◌};
    ghost use Rattle.bayou_web_serve.specs.declared.page.PageFault.TheVariants.{OutOfMemory};

    ghost from_gives = { λ _ fault. fault ≡ OutOfMemory };

    fn from(_error: AllocError) -> PageFault {
        PageFault::OutOfMemory
    }
}

// The loopback address that the word says, if it says one.
fn loopback_in(word: &str) -> Option<SocketAddr>
    ensures { MatchOption result (SaysNoLoopback word.now) (SaysLoopback word.now) }
{
    let Ok(address) = word.parse::<SocketAddr>() else {
        return None;
    };
    if address.ip().is_loopback() {
        Some(address)
    } else {
        None
    }
}

// Whether none of the bytes is a space, or one that moves a cursor.
fn has_no_blank(bytes: &[u8]) -> bool
    ensures { IsTrue result ↔ All (λ byte. 32 < byte) bytes.now }
{
    bytes.iter().all(|byte| *byte > b' ')
}

// Whether a claim can be made under the name: it is a value of one word.
fn is_name(name: &str) -> bool
    ensures { IsTrue result ↔ IsName name.now }
{
    !name.is_empty() && name.len() <= MAX_NAME_BYTES && has_no_blank(name.as_bytes())
}

impl SitePage {
    /// The page that these words ask for.
    pub fn new(alloc: Global, listen: &str, name: Option<&str>) -> Result<Self, PageFault>
        ensures listen { IfOk result (λ page. SaysLoopback listen.now page.listen) }
        ensures name { IfOk result (λ page. option_map (λ text. string_bytes text) page.name ≡ option_map (λ text. text.now) name.entry) }
        ensures bounded { IfOk result (λ page. IfSome page.name (λ text. IsName (string_bytes text))) }
        ensures not_loopback { result ≡ Err NotLoopback → SaysNoLoopback listen.now }
        ensures no_name { result ≡ Err NoName → IsSomeAnd name.entry (λ text. ¬ (IsName text.now)) }
    {
        let Some(listen) = loopback_in(listen) else {
            return Err(PageFault::NotLoopback);
        };
        let name = match name {
            None => None,
            Some(name) if is_name(name) => Some(name.to_string(alloc)?),
            Some(_) => return Err(PageFault::NoName),
        };
        Ok(SitePage { listen, name })
    }
}
