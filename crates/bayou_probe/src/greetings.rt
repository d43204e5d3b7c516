//! Greetings: what their bytes are read as, keys and proofs, digests, and what is reported of a stranger.
use crate::telling::{hex_of, told_fault};
use bayou_base::{Key, ServerId};
use bayou_greeting::{
    Nonces, OriginDigests, Secret, StoreKey, client_proof, greet, hmac_sha256, server_proof,
};
use bayou_wire::layout::NONCE_BYTES;
use bayou_wire::{Greeting, Hello, Nonce, ServerCount, Welcome, decode_greeting, encode_greeting};
use std::alloc::{AllocError, Global};

/// How many bytes the secret of a key has.
const SECRET_BYTES: usize = 32;

/// What is reported of bytes that are none.
const NONE: &str = "!";

/// What stands for a key or a greeting that isn't there.
const MISSING: &str = "-";

/// The greeting, if the bytes are its one spelling.
pub(crate) fn greeting(alloc: Global, bytes: &[u8]) -> Result<String, AllocError> {
    let greeting = match decode_greeting(bytes) {
        Ok(greeting) => greeting,
        Err(fault) => return told_fault(alloc, &fault),
    };
    let again = encode_greeting(alloc, &greeting)?;
    if again.as_slice() == bytes {
        format!(in alloc; "{greeting:?}")
    } else {
        "spelled otherwise".to_string(alloc)
    }
}

/// The code of a text under a key.
pub(crate) fn code(alloc: Global, key: &[u8], text: &[u8]) -> Result<String, AllocError> {
    hex_of(alloc, &hmac_sha256(key, text))
}

fn nonce_in(bytes: &[u8]) -> Option<Nonce> {
    if bytes.len() != NONCE_BYTES {
        return None;
    }
    let mut nonce = [0; NONCE_BYTES];
    nonce.copy_from_slice(bytes);
    Some(Nonce::new(nonce))
}

fn key_in(secret: &[u8]) -> Option<StoreKey> {
    if secret.len() != SECRET_BYTES {
        return None;
    }
    let name = Key::new("room").ok()?;
    Some(StoreKey {
        name,
        secret: Secret::new(secret),
    })
}

/// The proofs of both ends, by a key of this secret, the nonces of client and server, and the server and its count.
pub(crate) fn proofs(
    alloc: Global,
    secret: &[u8],
    client: &[u8],
    server: &[u8],
    place: &[u8],
) -> Option<Result<String, AllocError>> {
    let [id, count] = place else {
        return None;
    };
    let key = key_in(secret)?;
    let nonces = Nonces {
        client: nonce_in(client)?,
        server: nonce_in(server)?,
    };
    let id = ServerId::new(*id)?;
    let servers = ServerCount::new(*count)?;
    Some(told_proofs(alloc, &key, &nonces, id, servers))
}

fn told_proofs(
    alloc: Global,
    key: &StoreKey,
    nonces: &Nonces,
    id: ServerId,
    servers: ServerCount,
) -> Result<String, AllocError> {
    let server = hex_of(alloc, server_proof(key, nonces, id, servers).bytes())?;
    let client = hex_of(alloc, client_proof(key, nonces).bytes())?;
    format!(in alloc; "{server} {client}")
}

/// The line of the key that the line is of.
pub(crate) fn key(alloc: Global, line: &str) -> Result<String, AllocError> {
    let Some(key) = StoreKey::parse(line.as_bytes()) else {
        return NONE.to_string(alloc);
    };
    let line = key.line();
    match str::from_utf8(line.as_slice()) {
        Ok(line) => line.to_string(alloc),
        Err(_) => NONE.to_string(alloc),
    }
}

/// The digest at each count of Writes of these bytes, and what is reported of one more.
pub(crate) fn digests(alloc: Global, writes: &[Vec<u8>]) -> Result<String, AllocError> {
    let mut digests = OriginDigests::new(alloc);
    for write in writes {
        digests.extend(write)?;
    }
    let mut told = String::new(alloc);
    for count in 0..writes.len() + 2 {
        let digest = digests.at(count);
        told.push_str(format!(in alloc; "{digest:?} ")?.as_str())?;
    }
    Ok(told)
}

fn hello_in(bytes: &[u8]) -> Option<Hello> {
    match decode_greeting(bytes) {
        Ok(Greeting::Hello(hello)) => Some(hello),
        _ => None,
    }
}

fn welcome_in(bytes: &[u8]) -> Option<Welcome> {
    match decode_greeting(bytes) {
        Ok(Greeting::Welcome(welcome)) => Some(welcome),
        _ => None,
    }
}

/// What a Hello, a key's line and a Welcome come to; `-` stands for no key.
pub(crate) fn greeted(
    alloc: Global,
    hello: &[u8],
    line: &str,
    welcome: &[u8],
) -> Option<Result<String, AllocError>> {
    let hello = hello_in(hello)?;
    let key = if line == MISSING {
        None
    } else {
        Some(StoreKey::parse(line.as_bytes())?)
    };
    let welcome = welcome_in(welcome);
    Some(match greet(&hello, &key, &welcome) {
        Ok(()) => "known".to_string(alloc),
        Err(stranger) => format!(in alloc; "{stranger}"),
    })
}
