ghost use Rattle.std.specs.Prelude.{◌≡◌, ◌↔◌, ◌+◌, ◌<◌, ◌≤◌, ◌^◌, ◌++◌, IsTrue, length, map, vec_capacity, vec_len};
ghost use Rattle.bayou_base.specs.declared.limits.TheConstants.{MAX_BODY_BYTES};
ghost use Rattle.bayou_journal.specs.Chain;
ghost use Rattle.bayou_journal.specs.Chain.{AreBodies, entries_bytes};
ghost use Rattle.bayou_journal.specs.Versions.{IsVersion, IsVersionOf};

use bayou_base::{MAX_BODY_BYTES, OLD_SERVERS, ServerId};
use sha2::{Digest, Sha256};

/// What every journal begins with, before its version.
pub const MAGIC: [u8; 8] = *b"BAYOUJNL";

/// The oldest version of the format that is read: entries of plain bodies.
pub const FIRST_VERSION: u8 = 1;

/// The version of new journals, and the one that bodies are added in. A journal of an earlier one is raised to it in place, after a
/// mark.
pub const NEWEST_VERSION: u8 = 3;

/// The oldest version that is of as many servers as there are now: before it there were [`OLD_SERVERS`].
pub const WIDE_VERSION: u8 = 3;

/// How many bytes stand before the version: the magic bytes.
pub const MAGIC_BYTES: usize = 8;

/// How many bytes stand before the server's identifier: the magic bytes and the version.
pub const NAME_BYTES: usize = MAGIC_BYTES + 1;

/// How many bytes a header has: the name and the server's identifier.
pub const HEADER_BYTES: usize = NAME_BYTES + 1;

/// How many bytes an entry's length has, before its body.
pub const LENGTH_BYTES: usize = 2;

/// How many bytes a digest of SHA-256 has, after the body.
pub const DIGEST_BYTES: usize = 32;

/// How many bytes an entry has at the most.
pub const ENTRY_BYTES: usize = LENGTH_BYTES + MAX_BODY_BYTES + DIGEST_BYTES;

// Whether the format has such a version.
pub(crate) fn is_version(version: u8) -> bool
    ensures { IsTrue result ↔ IsVersion version }
{
    FIRST_VERSION <= version && version <= NEWEST_VERSION
}

// Whether the journal of this server may have the version.
pub(crate) fn is_version_of(server: ServerId, version: u8) -> bool
    ensures { IsTrue result ↔ IsVersionOf server.index version }
{
    is_version(version) && (WIDE_VERSION <= version || usize::from(server.index) < OLD_SERVERS)
}

/// The header of a server's journal in a version of the format.
pub fn header_of(version: u8, server: ServerId) -> [u8; HEADER_BYTES]
    ensures { result ≡ Chain.header version server.index }
{
    let [b, a, y, o, u, j, n, l] = MAGIC;
    [b, a, y, o, u, j, n, l, version, server.index]
}

/// The digest of an entry.
pub fn link_of(before: &[u8; DIGEST_BYTES], body: &[u8]) -> [u8; DIGEST_BYTES]
    requires { length body.now < 2 ^ 16 }
    ensures { result ≡ Chain.link before.now body.now }
{
    let mut hasher = Sha256::new();
    hasher.update(before);
    hasher.update((body.len() as u16).to_be_bytes());
    hasher.update(body);
    hasher.finalize()
}

// Adds a piece for which there is room.
fn put(bytes: &mut Vec<u8>, piece: &[u8])
    requires { vec_len bytes.old + length piece.now ≤ vec_capacity bytes.old }
    ensures items { bytes.new.items ≡ bytes.old.items ++ piece.now }
    ensures room { vec_capacity bytes.old ≤ vec_capacity bytes.new }
{
    let Ok(()) = bytes.extend_from_slice(piece) else {
        unreachable!();
    };
}

// Writes an entry in the place of what the bytes were, which takes no memory.
pub(crate) fn write_entry(bytes: &mut Vec<u8>, body: &[u8], digest: &[u8; DIGEST_BYTES])
    requires body { length body.now ≤ MAX_BODY_BYTES }
    requires room { ENTRY_BYTES ≤ vec_capacity bytes.old }
    ensures items { bytes.new.items ≡ Chain.sized body.now ++ digest.now }
    ensures room { ENTRY_BYTES ≤ vec_capacity bytes.new }
{
    bytes.clear();
    put(bytes, (body.len() as u16).to_be_bytes().as_slice());
    put(bytes, body);
    put(bytes, digest.as_slice());
}

// Adds an entry for which there is room.
fn push_entry(bytes: &mut Vec<u8>, body: &[u8], digest: &[u8; DIGEST_BYTES])
    requires body { length body.now ≤ MAX_BODY_BYTES }
    requires room { vec_len bytes.old + (LENGTH_BYTES + length body.now + DIGEST_BYTES) ≤ vec_capacity bytes.old }
    ensures items { bytes.new.items ≡ bytes.old.items ++ (Chain.sized body.now ++ digest.now) }
    ensures len { vec_len bytes.new ≡ vec_len bytes.old + (LENGTH_BYTES + length body.now + DIGEST_BYTES) }
    ensures room { vec_capacity bytes.old ≤ vec_capacity bytes.new }
{
    put(bytes, (body.len() as u16).to_be_bytes().as_slice());
    put(bytes, body);
    put(bytes, digest.as_slice());
}

// Writes the entries of the bodies, one after the other, in the place of what the bytes were, and gives the digest of the last. It takes
// no memory.
pub(crate) fn write_entries(
    bytes: &mut Vec<u8>,
    before: &[u8; DIGEST_BYTES],
    bodies: &[Vec<u8>],
) -> [u8; DIGEST_BYTES]
    requires bodies { AreBodies (map (λ body. body.items) bodies.now) }
    requires within { entries_bytes (map (λ body. body.items) bodies.now) ≤ ENTRY_BYTES }
    requires room { ENTRY_BYTES ≤ vec_capacity bytes.old }
    ensures items { bytes.new.items ≡ Chain.entries before.now (map (λ body. body.items) bodies.now) }
    ensures last { result ≡ Chain.last_link before.now (map (λ body. body.items) bodies.now) }
    ensures room { ENTRY_BYTES ≤ vec_capacity bytes.new }
{
    bytes.clear();
    let mut last = *before;
    for body in bodies {
        let digest = link_of(&last, body);
        push_entry(bytes, body, &digest);
        last = digest;
    }
    last
}

// Writes a header in the place of what the bytes were, which takes no memory.
pub(crate) fn write_header(bytes: &mut Vec<u8>, header: &[u8; HEADER_BYTES])
    requires room { ENTRY_BYTES ≤ vec_capacity bytes.old }
    ensures items { bytes.new.items ≡ header.now }
    ensures room { ENTRY_BYTES ≤ vec_capacity bytes.new }
{
    bytes.clear();
    put(bytes, header.as_slice());
}
