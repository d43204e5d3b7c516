//! The keyed-hash message authentication code of RFC 2104, over SHA-256 (FIPS 180-4).
ghost use Rattle.std.specs.Prelude.{◌≡◌, ◌≤◌, length};
ghost use Rattle.bayou_greeting.specs.Hmac;
ghost use Rattle.bayou_greeting.specs.Hmac.{key_block, padded_key, with_pad};
ghost use Rattle.bayou_greeting.specs.declared.hmac.TheConstants.{BLOCK_BYTES};

use sha2::{Digest, Sha256};

/// How many bytes a block of SHA-256 has.
pub const BLOCK_BYTES: usize = 64;

/// How many bytes a digest of SHA-256 has.
pub const DIGEST_BYTES: usize = 32;

/// The byte of the inner pad.
pub const INNER_PAD: u8 = 0x36;

/// The byte of the outer pad.
pub const OUTER_PAD: u8 = 0x5c;

// The key with zeros after it, up to a block.
fn padded_block(key: &[u8]) -> [u8; BLOCK_BYTES]
    requires { length key.now ≤ BLOCK_BYTES }
    ensures { result ≡ padded_key key.now }
{
    let mut block = [0; BLOCK_BYTES];
    block[..key.len()].copy_from_slice(key);
    block
}

fn block_of(key: &[u8]) -> [u8; BLOCK_BYTES]
    ensures { result ≡ key_block key.now }
{
    if key.len() <= BLOCK_BYTES {
        padded_block(key)
    } else {
        let digest = Sha256::digest(key);
        padded_block(&digest)
    }
}

fn padded_with(block: &[u8; BLOCK_BYTES], pad: u8) -> [u8; BLOCK_BYTES]
    ensures { result ≡ with_pad pad block.now }
{
    let mut padded = *block;
    for place in 0..BLOCK_BYTES {
        padded[place] ^= pad;
    }
    padded
}

/// The code of the text under the key.
#[tactic(auto, unfolding(crate::specs::Hmac::hmac_sha256))]
pub fn hmac_sha256(key: &[u8], text: &[u8]) -> [u8; DIGEST_BYTES]
    ensures { result ≡ Hmac.hmac_sha256 key.now text.now }
{
    let block = block_of(key);
    let mut inner = Sha256::new();
    inner.update(padded_with(&block, INNER_PAD));
    inner.update(text);
    let mut outer = Sha256::new();
    outer.update(padded_with(&block, OUTER_PAD));
    outer.update(inner.finalize());
    outer.finalize()
}
