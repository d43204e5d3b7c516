//! Writers of greetings, and the encoder of one.
ghost use Rattle.std.specs.Prelude.{◌≡◌, ◌<◌, ◌≤◌, ◌+◌, ◌^◌, ◌++◌, ◌∷◌, [], length, OnOk, IfOk};
ghost use Rattle.std.specs.List.{flat_map, AllByRecursion};
ghost use Rattle.std.specs.Option.{IfSome};
ghost use Rattle.bayou_base.specs.declared.limits.TheConstants.{MAX_FRAME_BYTES};
ghost use Rattle.bayou_wire.specs.declared.layout.TheConstants.{LENGTH_BYTES};
ghost use Rattle.bayou_wire.specs.Digests.{AreDigests, IsDigest};
ghost use Rattle.bayou_wire.specs.Greetings.{IsProving, IsGreeting, IsHeld, IsHello, IsInquiry, IsKnown, IsNonce, IsProof, IsWelcome, SpellsGreeting, digest_bytes, digests_bytes, greeting_kind, greeting_payload, held_bytes, hello_bytes, inquiry_bytes, known_bytes, optional_bytes, optional_count_bytes, optional_server_bytes, proving_bytes, welcome_bytes};
ghost use Rattle.bayou_wire.specs.Spelling.{u32_bytes};

use crate::digests::Digests;
use crate::encode::{USUAL_BYTES, packed_bytes};
use crate::greeting::{Greeting, Held, Hello, Inquiry, Known, Proving, ServerCount, Welcome};
use crate::layout::*;
use crate::lookup_put::{put_fate, put_fate_asked, put_optional_key, put_page, put_rows_asked};
use crate::nonce::Nonce;
use crate::proof::Proof;
use crate::put::{Spelled, put_code, put_list, put_u32, put_vector};
use bayou_base::ServerId;
use std::alloc::{AllocError, Global};

fn put_digest(out: &mut Vec<u8>, digest: u64) -> Result<(), AllocError>
    ensures { OnOk result (IsDigest digest × (out.new.items ≡ out.old.items ++ digest_bytes digest)) }
{
    out.extend_from_slice(&digest.to_be_bytes())
}

/// A count.
impl Spelled for u32 {
    ghost Is = { λ count. count < 2 ^ 32 };

    ghost spelling = { u32_bytes };

    fn put(&self, out: &mut Vec<u8>) -> Result<(), AllocError> {
        put_u32(out, *self)
    }
}

/// A digest.
impl Spelled for u64 {
    ghost Is = { IsDigest };

    ghost spelling = { digest_bytes };

    fn put(&self, out: &mut Vec<u8>) -> Result<(), AllocError> {
        put_digest(out, *self)
    }
}

fn put_nonce(out: &mut Vec<u8>, nonce: &Nonce) -> Result<(), AllocError>
    ensures { OnOk result (IsNonce nonce.now × (out.new.items ≡ out.old.items ++ nonce.now)) }
{
    out.extend_from_slice(nonce.bytes())
}

fn put_proof(out: &mut Vec<u8>, proof: &Proof) -> Result<(), AllocError>
    ensures { OnOk result (IsProof proof.now × (out.new.items ≡ out.old.items ++ proof.now)) }
{
    out.extend_from_slice(proof.bytes())
}

fn put_each_digest(out: &mut Vec<u8>, digests: &[u64]) -> Result<(), AllocError>
    ensures { OnOk result (AllByRecursion IsDigest digests.now × (out.new.items ≡ out.old.items ++ digests_bytes digests.now)) }
{
    for digest in digests {
        put_digest(out, *digest)?;
    }
    Ok(())
}

fn put_digests(out: &mut Vec<u8>, digests: &Digests) -> Result<(), AllocError>
    ensures { OnOk result (AreDigests digests.now × (out.new.items ≡ out.old.items ++ digests_bytes digests.now)) }
{
    put_each_digest(out, digests.each())
}

fn put_optional_server(out: &mut Vec<u8>, server: Option<ServerId>) -> Result<(), AllocError>
    ensures { OnOk result (out.new.items ≡ out.old.items ++ optional_server_bytes server) }
{
    match server {
        None => put_code(out, NO_SERVER),
        Some(server) => put_code(out, server.index),
    }
}

fn put_optional_count(out: &mut Vec<u8>, servers: Option<ServerCount>) -> Result<(), AllocError>
    ensures { OnOk result (out.new.items ≡ out.old.items ++ optional_count_bytes servers) }
{
    match servers {
        None => put_code(out, ANY_COUNT),
        Some(servers) => put_code(out, servers.count),
    }
}

fn put_held(out: &mut Vec<u8>, held: &Held) -> Result<(), AllocError>
    ensures { OnOk result (IsHeld held.now × (out.new.items ≡ out.old.items ++ held_bytes held.now)) }
{
    put_vector(out, &held.vector)?;
    put_digests(out, &held.digests)
}

fn put_optional_held(out: &mut Vec<u8>, held: &Option<Held>) -> Result<(), AllocError>
    ensures { OnOk result (IfSome held.now IsHeld × (out.new.items ≡ out.old.items ++ optional_bytes held_bytes held.now)) }
{
    match held {
        None => put_code(out, ABSENT),
        Some(held) => {
            put_code(out, PRESENT)?;
            put_held(out, held)
        }
    }
}

fn put_optional_digests(out: &mut Vec<u8>, digests: &Option<Digests>) -> Result<(), AllocError>
    ensures { OnOk result (IfSome digests.now AreDigests × (out.new.items ≡ out.old.items ++ optional_bytes digests_bytes digests.now)) }
{
    match digests {
        None => put_code(out, ABSENT),
        Some(digests) => {
            put_code(out, PRESENT)?;
            put_digests(out, digests)
        }
    }
}

fn put_hello(out: &mut Vec<u8>, hello: &Hello) -> Result<(), AllocError>
    ensures { OnOk result (IsHello hello.now × (out.new.items ≡ out.old.items ++ hello_bytes hello.now)) }
{
    put_code(out, hello.version)?;
    put_optional_server(out, hello.asked)?;
    put_optional_server(out, hello.from)?;
    put_optional_count(out, hello.servers)?;
    put_nonce(out, &hello.nonce)
}

fn put_welcome(out: &mut Vec<u8>, welcome: &Welcome) -> Result<(), AllocError>
    ensures { OnOk result (IsWelcome welcome.now × (out.new.items ≡ out.old.items ++ welcome_bytes welcome.now)) }
{
    put_code(out, welcome.version)?;
    put_code(out, welcome.id.index)?;
    put_code(out, welcome.servers.count)?;
    put_optional_key(out, &welcome.name)?;
    put_nonce(out, &welcome.nonce)?;
    put_proof(out, &welcome.proof)
}

fn put_proving(out: &mut Vec<u8>, given: &Proving) -> Result<(), AllocError>
    ensures { OnOk result (IsProving given.now × (out.new.items ≡ out.old.items ++ proving_bytes given.now)) }
{
    put_proof(out, &given.proof)?;
    put_optional_held(out, &given.held)
}

fn put_known(out: &mut Vec<u8>, known: &Known) -> Result<(), AllocError>
    ensures { OnOk result (IsKnown known.now × (out.new.items ≡ out.old.items ++ known_bytes known.now)) }
{
    put_vector(out, &known.vector)?;
    put_u32(out, known.limit)?;
    put_optional_digests(out, &known.digests)?;
    put_optional_server(out, known.without)
}

fn put_inquiry(out: &mut Vec<u8>, inquiry: &Inquiry) -> Result<(), AllocError>
    ensures { OnOk result (IsInquiry inquiry.now × (out.new.items ≡ out.old.items ++ inquiry_bytes inquiry.now)) }
{
    put_code(out, inquiry.origin.index)?;
    put_list(out, inquiry.counts.as_slice())
}

fn put_greeting(out: &mut Vec<u8>, greeting: &Greeting) -> Result<(), AllocError>
    ensures { OnOk result (IsGreeting greeting.now × (out.new.items ≡ out.old.items ++ greeting_payload greeting.now)) }
{
    match greeting {
        Greeting::Hello(hello) => put_hello(out, hello),
        Greeting::Proof(given) => put_proving(out, given),
        Greeting::Digests(inquiry) => put_inquiry(out, inquiry),
        Greeting::Welcome(welcome) => put_welcome(out, welcome),
        Greeting::Known(known) => put_known(out, known),
        Greeting::Differs(origin) => put_code(out, origin.index),
        Greeting::Digested(digests) => put_list(out, digests.as_slice()),
        Greeting::List(asked) => put_rows_asked(out, asked),
        Greeting::Became(asked) => put_fate_asked(out, asked),
        Greeting::Listed(page) => put_page(out, page),
        Greeting::Outcome(fate) => put_fate(out, fate),
    }
}

fn greeting_kind_byte(greeting: &Greeting) -> u8
    ensures { result ≡ greeting_kind greeting.now }
{
    match greeting {
        Greeting::Hello(_) => KIND_HELLO,
        Greeting::Proof(_) => KIND_PROOF,
        Greeting::Digests(_) => KIND_DIGESTS,
        Greeting::Welcome(_) => KIND_WELCOME,
        Greeting::Known(_) => KIND_KNOWN,
        Greeting::Differs(_) => KIND_DIFFERS,
        Greeting::Digested(_) => KIND_DIGESTED,
        Greeting::List(_) => KIND_LIST,
        Greeting::Became(_) => KIND_BECAME,
        Greeting::Listed(_) => KIND_LISTED,
        Greeting::Outcome(_) => KIND_OUTCOME,
    }
}

fn framed_greeting(alloc: Global, greeting: &Greeting) -> Result<Vec<u8>, AllocError>
    ensures { IfOk result (λ bytes. SpellsGreeting bytes.items greeting.now) }
{
    let mut payload = Vec::with_capacity(alloc, USUAL_BYTES)?;
    put_greeting(&mut payload, greeting)?;
    packed_bytes(alloc, greeting_kind_byte(greeting), &payload)
}

/// The one spelling of the greeting, its length first. Want of memory is the only refusal, and leaves nothing behind.
pub fn encode_greeting(alloc: Global, greeting: &Greeting) -> Result<Vec<u8>, AllocError>
    ensures spelling { IfOk result (λ bytes. SpellsGreeting bytes.items greeting.now) }
    ensures size { IfOk result (λ bytes. length bytes.items ≤ LENGTH_BYTES + MAX_FRAME_BYTES) }
{
    framed_greeting(alloc, greeting)
}
