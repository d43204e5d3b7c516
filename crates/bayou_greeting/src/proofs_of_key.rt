//! That an end knows the key of its store.
ghost use Rattle.std.specs.Prelude.{◌≡◌, ◌+◌, ◌≤◌, ◌++◌, ◌∷◌, [], ◌↔◌, IsTrue, codes, length};
ghost use Rattle.arrayvec.specs.ArrayVec.{array_vec_len};
ghost use Rattle.bayou_greeting.specs.declared.proofs_of_key.TheConstants.{TEXT_BYTES};
ghost use Rattle.bayou_greeting.specs.Proofs.{IsAdmitted, client_proof as client_proof_of, client_text, server_proof as server_proof_of, server_text};

use crate::hmac::hmac_sha256;
use crate::store_key::StoreKey;
use arrayvec::ArrayVec;
use bayou_base::ServerId;
use bayou_wire::layout::{NONCE_BYTES, PROOF_BYTES};
use bayou_wire::{Nonce, Proof, ServerCount};

/// How many bytes the role of an end has.
pub const ROLE_BYTES: usize = 6;

/// The role of a server.
pub const SERVER_ROLE: [u8; ROLE_BYTES] = *b"server";

/// The role of a client.
pub const CLIENT_ROLE: [u8; ROLE_BYTES] = *b"client";

/// How many bytes are proved at the most: a role, two nonces, a server and a count.
pub const TEXT_BYTES: usize = ROLE_BYTES + 2 * NONCE_BYTES + 2;

/// What the two ends drew for one greeting. Who greets is the client.
#[derive(Clone, Copy, Debug, PartialEq, Eq)]
pub struct Nonces {
    pub client: Nonce,
    pub server: Nonce,
}

// Adds a piece for which there is room.
fn add(text: &mut ArrayVec<u8, TEXT_BYTES>, piece: &[u8])
    requires { array_vec_len text.old + length piece.now ≤ TEXT_BYTES }
    ensures items { text.new.items ≡ text.old.items ++ piece.now }
    ensures len { array_vec_len text.new ≡ array_vec_len text.old + length piece.now }
{
    let Ok(()) = text.try_extend_from_slice(piece) else {
        unreachable!();
    };
}

fn text_of_server(nonces: &Nonces, id: ServerId, servers: ServerCount) -> ArrayVec<u8, TEXT_BYTES>
    ensures { result.items ≡ server_text nonces.now id servers }
{
    let mut text = ArrayVec::new();
    add(&mut text, &SERVER_ROLE);
    add(&mut text, nonces.client.bytes());
    add(&mut text, nonces.server.bytes());
    add(&mut text, &[id.index, servers.count]);
    text
}

fn text_of_client(nonces: &Nonces) -> ArrayVec<u8, TEXT_BYTES>
    ensures { result.items ≡ client_text nonces.now }
{
    let mut text = ArrayVec::new();
    add(&mut text, &CLIENT_ROLE);
    add(&mut text, nonces.server.bytes());
    add(&mut text, nonces.client.bytes());
    text
}

/// The proof of a server that is greeted, which says itself to be this one of so many.
pub fn server_proof(key: &StoreKey, nonces: &Nonces, id: ServerId, servers: ServerCount) -> Proof
    ensures { result ≡ server_proof_of key.now nonces.now id servers }
{
    let text = text_of_server(nonces, id, servers);
    Proof::new(hmac_sha256(key.secret.bytes(), text.as_slice()))
}

/// The proof of who greets.
pub fn client_proof(key: &StoreKey, nonces: &Nonces) -> Proof
    ensures { result ≡ client_proof_of key.now nonces.now }
{
    let text = text_of_client(nonces);
    Proof::new(hmac_sha256(key.secret.bytes(), text.as_slice()))
}

/// Whether they are one proof. It looks at each byte whatever the others are, so that the time that it takes tells nothing of them.
pub fn is_same_proof(found: &Proof, wanted: &Proof) -> bool
    ensures { IsTrue result ↔ (found.now ≡ wanted.now) }
{
    let found = found.bytes();
    let wanted = wanted.bytes();
    let mut difference = 0;
    for place in 0..PROOF_BYTES {
        difference |= found[place] ^ wanted[place];
    }
    difference == 0
}

/// Whether who greets with this proof is let in: by a store that has a key only with the proof of a client that has it too, by an open one with any.
pub fn admits(key: &Option<StoreKey>, nonces: &Nonces, proof: &Proof) -> bool
    ensures { IsTrue result ↔ IsAdmitted key.now nonces.now proof.now }
{
    match key {
        None => true,
        Some(key) => is_same_proof(proof, &client_proof(key, nonces)),
    }
}
