ghost use Rattle.std.specs.Prelude.{◌≡◌, ◌+◌, ◌++◌, ◌↔◌, ℕ, List, IfNone, IfOk, IfSome, IsErrOf, IsTrue, get_or, length};
ghost use Rattle.bayou_device.specs.Device.{BeginsWith};
ghost use Rattle.bayou_journal.specs.Chain;
ghost use Rattle.bayou_journal.specs.Chain.{IsBody, NoEntry, header};
ghost use Rattle.bayou_journal.specs.declared.format.TheConstants.{MAGIC_BYTES, NEWEST_VERSION};
ghost use Rattle.bayou_journal.specs.Inner.Heads.{HasHead};
ghost use Rattle.bayou_journal.specs.Inner.Reads.{IsFound, IsRead};
ghost use Rattle.bayou_journal.specs.Opening.{IsForeign, IsOfAnother};
ghost use Rattle.bayou_journal.specs.Versions.{IsVersionOf, marked};

use crate::fault::OpenFault;
use crate::format::{
    DIGEST_BYTES, HEADER_BYTES, LENGTH_BYTES, MAGIC_BYTES, NAME_BYTES, NEWEST_VERSION, header_of,
    is_version, is_version_of, link_of,
};
use crate::opened::Place;
use bayou_base::{MAX_BODY_BYTES, ServerId};
use sha2::{Digest, Sha256};
use std::alloc::{AllocError, Global};

// What stands at the front of some bytes.
#[derive(Clone, Copy)]
pub enum Head {
    // The front of a header, in some version, and nothing after it.
    New,
    // The server's own header, in this version.
    Own(u8),
    // Another server's header, or that of one which its version knows nothing of.
    OfAnother,
    // Anything else.
    Foreign,
}

// The entry at the front of some bytes, and what stands after it.
#[derive(Drop)]
pub struct Entry<'a> {
    pub body: &'a [u8],
    pub digest: [u8; DIGEST_BYTES],
    pub rest: &'a [u8],
}

// The chain that some bytes hold, as it was read: where the bodies lie that it tells, the version and the digest that it has
// after its last entry, and where it ends (0 where not even a header is there).
#[derive(Drop)]
pub struct ReadChain {
    pub places: Vec<Place>,
    pub version: u8,
    pub last: [u8; DIGEST_BYTES],
    pub end: usize,
}

// Whether they are the same bytes.
pub fn is_same(found: &[u8], wanted: &[u8]) -> bool
    ensures { IsTrue result ↔ (found.now ≡ wanted.now) }
{
    found == wanted
}

// The entry at the front of the bytes, if one stands there after that digest.
pub fn first_entry<'a>(before: &[u8; DIGEST_BYTES], bytes: &'a [u8]) -> Option<Entry<'a>>
    ensures body { IfSome result (λ first. IsBody first.body.now) }
    ensures digest { IfSome result (λ first. first.digest ≡ Chain.link before.now first.body.now) }
    ensures split { IfSome result (λ first. bytes.now ≡ Chain.entry before.now first.body.now ++ first.rest.now) }
    ensures none { IfNone result (NoEntry before.now bytes.now) }
{
    let [high, low, behind @ ..] = bytes else {
        return None;
    };
    let length = usize::from(u16::from_be_bytes([*high, *low]));
    if length == 0 || length > MAX_BODY_BYTES || behind.len() < length + DIGEST_BYTES {
        return None;
    }
    let (body, behind) = behind.split_at(length);
    let (found, rest) = behind.split_at(DIGEST_BYTES);
    let digest = link_of(before, body);
    if !is_same(found, digest.as_slice()) {
        return None;
    }
    Some(Entry { body, digest, rest })
}

// The digest that a server's first entry stands after, in a version of the format.
pub fn first_link_of(version: u8, server: ServerId) -> [u8; DIGEST_BYTES]
    ensures { result ≡ Chain.first_link version server.index }
{
    Sha256::digest(header_of(version, server))
}

// The later version that the body marks, where the chain has this one.
pub fn marked_by(version: u8, body: &[u8]) -> Option<u8>
    ensures { result ≡ marked version body.now }
{
    match body {
        [mark] if version < *mark && *mark <= NEWEST_VERSION => Some(*mark),
        _ => None,
    }
}

// The longest chain of a server's journal whose header has this version.
pub fn chain_of(
    alloc: Global,
    version: u8,
    server: ServerId,
    bytes: &[u8],
) -> Result<ReadChain, AllocError>
    requires version { IsVersionOf server.index version }
    requires header { BeginsWith (header version server.index) bytes.now }
    ensures { IfOk result (λ chain. (rest : List ℕ) × IsRead version server.index bytes.now chain.places.items chain.version chain.last rest × NoEntry chain.last rest
        × (chain.end + length rest ≡ length bytes.now)) }
{
    let mut places = Vec::new(alloc);
    let mut now = version;
    let mut last = first_link_of(version, server);
    let mut rest = &bytes[HEADER_BYTES..];
    while let Some(first) = first_entry(&last, rest) {
        let start = bytes.len() - rest.len() + LENGTH_BYTES;
        let end = start + first.body.len();
        match marked_by(now, first.body) {
            Some(later) => now = later,
            None => places.push(Place {
                start,
                end,
                version: now,
            })?,
        }
        last = first.digest;
        rest = first.rest;
    }
    Ok(ReadChain {
        places,
        version: now,
        last,
        end: bytes.len() - rest.len(),
    })
}

// The version that the bytes name; or the newest, where they are too short to name one.
pub fn version_in(bytes: &[u8]) -> u8
    ensures { result ≡ get_or bytes.now MAGIC_BYTES NEWEST_VERSION }
{
    match bytes.get(MAGIC_BYTES) {
        Some(version) => *version,
        None => NEWEST_VERSION,
    }
}

// What stands at the front of the bytes of what should be a server's journal.
pub fn head_of(server: ServerId, bytes: &[u8]) -> Head
    ensures { HasHead server.index bytes.now result }
{
    let version = version_in(bytes);
    let header = header_of(version, server);
    let named = bytes.len().min(NAME_BYTES);
    if !is_version(version) || !is_same(&bytes[..named], &header[..named]) {
        return Head::Foreign;
    }
    if bytes.len() < HEADER_BYTES {
        Head::New
    } else if bytes[NAME_BYTES] == server.index && is_version_of(server, version) {
        Head::Own(version)
    } else {
        Head::OfAnother
    }
}

// The chain that an opening finds.
pub fn find_chain(alloc: Global, server: ServerId, bytes: &[u8]) -> Result<ReadChain, OpenFault>
    ensures found { IfOk result (λ chain. IsFound server.index bytes.now chain.places.items chain.version chain.last chain.end) }
    ensures foreign { IsErrOf result OpenFault.NotAJournal → IsForeign bytes.now }
    ensures other { IsErrOf result OpenFault.OtherServer → IsOfAnother server.index bytes.now }
    ensures no_device { IsErrOf result OpenFault.Device → ⊥ }
{
    match head_of(server, bytes) {
        Head::New => Ok(ReadChain {
            places: Vec::new(alloc),
            version: NEWEST_VERSION,
            last: first_link_of(NEWEST_VERSION, server),
            end: 0,
        }),
        Head::Own(version) => Ok(chain_of(alloc, version, server, bytes)?),
        Head::Foreign => Err(OpenFault::NotAJournal),
        Head::OfAnother => Err(OpenFault::OtherServer),
    }
}
