//! Readers of greetings, and the decoder of one.
ghost use Rattle.std.specs.Prelude.{◌≡◌, Result, length};
ghost use Rattle.std.specs.Int.{w64};
ghost use Rattle.bayou_base.specs.declared.limits.TheConstants.{SERVERS};
ghost use Rattle.bayou_wire.specs.declared.fault.DecodeFault.{DecodeFault};
ghost use Rattle.bayou_wire.specs.declared.greeting.Greeting.{Greeting};
ghost use Rattle.bayou_wire.specs.declared.layout.TheConstants.{ANY_COUNT, DIGESTS_AT_ONCE, NONCE_BYTES, NO_SERVER, PROOF_BYTES};
ghost use Rattle.bayou_wire.specs.Greetings.{GreetingAnswer};
ghost use Rattle.bayou_wire.specs.Inner.Greetings.{IsUnpacked, UnpackedAnswer, count_of as count_of_number, digests_at, fixed_at, greeting_at, greeting_reply_at, held_at, hello_at, inquiry_at, is_greeting_kind as is_greeting_kind_test, known_at, named_at, named_or_at, optional_at, proving_at, welcome_at};
ghost use Rattle.bayou_wire.specs.Inner.Reading.{Gives, list_at, number_at, server_of as server_of_index, times};

use crate::digests::Digests;
use crate::fault::DecodeFault;
use crate::greeting::{Greeting, Held, Hello, Inquiry, Known, Proving, ServerCount, Welcome};
use crate::layout::*;
use crate::lookup_take::{fate_asked_of, fate_of, optional_key_of, page_of, rows_asked_of};
use crate::nonce::Nonce;
use crate::proof::Proof;
use crate::take::{Member, byte_of, list_of, members_of, server_from, u32_of, vector_of};
use bayou_base::{MAX_FRAME_BYTES, SERVERS, ServerId};

fn u64_of(bytes: &[u8]) -> Option<(u64, &[u8])>
    ensures { Gives (λ x. (x.0, x.1.now)) result (number_at w64 bytes.now) }
{
    if bytes.len() < 8 {
        return None;
    }
    let (front, rest) = bytes.split_at(8);
    let number = u64::from_be_bytes([
        front[0], front[1], front[2], front[3], front[4], front[5], front[6], front[7],
    ]);
    Some((number, rest))
}

/// A digest.
impl Member for u64 {
    ghost at = { number_at w64 };

    fn take(bytes: &[u8]) -> Option<(Self, &[u8])> {
        u64_of(bytes)
    }
}

fn nonce_from(list: &[u8]) -> Nonce
    requires { length list.now ≡ NONCE_BYTES }
    ensures { result ≡ list.now }
{
    let mut bytes = [0; NONCE_BYTES];
    bytes.copy_from_slice(list);
    Nonce::new(bytes)
}

fn nonce_of(bytes: &[u8]) -> Option<(Nonce, &[u8])>
    ensures { Gives (λ x. (x.0, x.1.now)) result (fixed_at NONCE_BYTES bytes.now) }
{
    if bytes.len() < NONCE_BYTES {
        return None;
    }
    let (front, rest) = bytes.split_at(NONCE_BYTES);
    Some((nonce_from(front), rest))
}

fn proof_from(list: &[u8]) -> Proof
    requires { length list.now ≡ PROOF_BYTES }
    ensures { result ≡ list.now }
{
    let mut bytes = [0; PROOF_BYTES];
    bytes.copy_from_slice(list);
    Proof::new(bytes)
}

fn proof_of(bytes: &[u8]) -> Option<(Proof, &[u8])>
    ensures { Gives (λ x. (x.0, x.1.now)) result (fixed_at PROOF_BYTES bytes.now) }
{
    if bytes.len() < PROOF_BYTES {
        return None;
    }
    let (front, rest) = bytes.split_at(PROOF_BYTES);
    Some((proof_from(front), rest))
}

#[tactic(auto, unfolding(crate::specs::Inner::Greetings::named_at))]
fn server_of(bytes: &[u8]) -> Option<(ServerId, &[u8])>
    ensures { Gives (λ x. (x.0, x.1.now)) result (named_at server_of_index bytes.now) }
{
    let Some((index, rest)) = byte_of(bytes) else {
        return None;
    };
    let Some(server) = server_from(index) else {
        return None;
    };
    Some((server, rest))
}

#[tactic(auto, unfolding(crate::specs::Inner::Greetings::named_or_at))]
fn optional_server_of(bytes: &[u8]) -> Option<(Option<ServerId>, &[u8])>
    ensures { Gives (λ x. (x.0, x.1.now)) result (named_or_at NO_SERVER server_of_index bytes.now) }
{
    match bytes {
        [] => None,
        [NO_SERVER, rest @ ..] => Some((None, rest)),
        [_, ..] => {
            let Some((server, rest)) = server_of(bytes) else {
                return None;
            };
            Some((Some(server), rest))
        }
    }
}

fn count_from(count: u8) -> Option<ServerCount>
    ensures { result ≡ count_of_number count }
{
    ServerCount::new(count)
}

#[tactic(auto, unfolding(crate::specs::Inner::Greetings::named_at))]
fn count_of(bytes: &[u8]) -> Option<(ServerCount, &[u8])>
    ensures { Gives (λ x. (x.0, x.1.now)) result (named_at count_of_number bytes.now) }
{
    let Some((count, rest)) = byte_of(bytes) else {
        return None;
    };
    let Some(servers) = count_from(count) else {
        return None;
    };
    Some((servers, rest))
}

#[tactic(auto, unfolding(crate::specs::Inner::Greetings::named_or_at))]
fn optional_count_of(bytes: &[u8]) -> Option<(Option<ServerCount>, &[u8])>
    ensures { Gives (λ x. (x.0, x.1.now)) result (named_or_at ANY_COUNT count_of_number bytes.now) }
{
    match bytes {
        [] => None,
        [ANY_COUNT, rest @ ..] => Some((None, rest)),
        [_, ..] => {
            let Some((servers, rest)) = count_of(bytes) else {
                return None;
            };
            Some((Some(servers), rest))
        }
    }
}

fn digests_from(list: &[u64]) -> Digests
    requires { length list.now ≡ SERVERS }
    ensures { result ≡ list.now }
{
    let mut each = [0; SERVERS];
    each.copy_from_slice(list);
    Digests::new(each)
}

#[tactic(auto, unfolding(crate::specs::Inner::Greetings::digests_at))]
fn digests_of(bytes: &[u8]) -> Option<(Digests, &[u8])>
    ensures { Gives (λ x. (x.0, x.1.now)) result (digests_at bytes.now) }
{
    let Some((list, rest)) = members_of::<u64, SERVERS>(SERVERS, bytes) else {
        return None;
    };
    Some((digests_from(list.as_slice()), rest))
}

#[tactic(auto, unfolding(crate::specs::Inner::Greetings::held_at))]
fn held_of(bytes: &[u8]) -> Option<(Held, &[u8])>
    ensures { Gives (λ x. (x.0, x.1.now)) result (held_at bytes.now) }
{
    let Some((vector, rest)) = vector_of(bytes) else {
        return None;
    };
    let Some((digests, rest)) = digests_of(rest) else {
        return None;
    };
    Some((Held { vector, digests }, rest))
}

#[tactic(auto, unfolding(crate::specs::Inner::Greetings::optional_at))]
fn optional_held_of(bytes: &[u8]) -> Option<(Option<Held>, &[u8])>
    ensures { Gives (λ x. (x.0, x.1.now)) result (optional_at held_at bytes.now) }
{
    match bytes {
        [ABSENT, rest @ ..] => Some((None, rest)),
        [PRESENT, rest @ ..] => {
            let Some((held, rest)) = held_of(rest) else {
                return None;
            };
            Some((Some(held), rest))
        }
        _ => None,
    }
}

#[tactic(auto, unfolding(crate::specs::Inner::Greetings::optional_at))]
fn optional_digests_of(bytes: &[u8]) -> Option<(Option<Digests>, &[u8])>
    ensures { Gives (λ x. (x.0, x.1.now)) result (optional_at digests_at bytes.now) }
{
    match bytes {
        [ABSENT, rest @ ..] => Some((None, rest)),
        [PRESENT, rest @ ..] => {
            let Some((digests, rest)) = digests_of(rest) else {
                return None;
            };
            Some((Some(digests), rest))
        }
        _ => None,
    }
}

#[tactic(auto, unfolding(crate::specs::Inner::Greetings::hello_at))]
fn hello_of(bytes: &[u8]) -> Option<(Hello, &[u8])>
    ensures { Gives (λ x. (x.0, x.1.now)) result (hello_at bytes.now) }
{
    let Some((version, rest)) = byte_of(bytes) else {
        return None;
    };
    let Some((asked, rest)) = optional_server_of(rest) else {
        return None;
    };
    let Some((from, rest)) = optional_server_of(rest) else {
        return None;
    };
    let Some((servers, rest)) = optional_count_of(rest) else {
        return None;
    };
    let Some((nonce, rest)) = nonce_of(rest) else {
        return None;
    };
    let hello = Hello {
        version,
        asked,
        from,
        servers,
        nonce,
    };
    Some((hello, rest))
}

#[tactic(auto, unfolding(crate::specs::Inner::Greetings::welcome_at))]
fn welcome_of(bytes: &[u8]) -> Option<(Welcome, &[u8])>
    ensures { Gives (λ x. (x.0, x.1.now)) result (welcome_at bytes.now) }
{
    let Some((version, rest)) = byte_of(bytes) else {
        return None;
    };
    let Some((id, rest)) = server_of(rest) else {
        return None;
    };
    let Some((servers, rest)) = count_of(rest) else {
        return None;
    };
    let Some((name, rest)) = optional_key_of(rest) else {
        return None;
    };
    let Some((nonce, rest)) = nonce_of(rest) else {
        return None;
    };
    let Some((proof, rest)) = proof_of(rest) else {
        return None;
    };
    let welcome = Welcome {
        version,
        id,
        servers,
        name,
        nonce,
        proof,
    };
    Some((welcome, rest))
}

#[tactic(auto, unfolding(crate::specs::Inner::Greetings::proving_at))]
fn proving_of(bytes: &[u8]) -> Option<(Proving, &[u8])>
    ensures { Gives (λ x. (x.0, x.1.now)) result (proving_at bytes.now) }
{
    let Some((proof, rest)) = proof_of(bytes) else {
        return None;
    };
    let Some((held, rest)) = optional_held_of(rest) else {
        return None;
    };
    Some((Proving { proof, held }, rest))
}

#[tactic(auto, unfolding(crate::specs::Inner::Greetings::known_at))]
fn known_of(bytes: &[u8]) -> Option<(Known, &[u8])>
    ensures { Gives (λ x. (x.0, x.1.now)) result (known_at bytes.now) }
{
    let Some((vector, rest)) = vector_of(bytes) else {
        return None;
    };
    let Some((limit, rest)) = u32_of(rest) else {
        return None;
    };
    let Some((digests, rest)) = optional_digests_of(rest) else {
        return None;
    };
    let Some((without, rest)) = optional_server_of(rest) else {
        return None;
    };
    let known = Known {
        vector,
        limit,
        digests,
        without,
    };
    Some((known, rest))
}

#[tactic(auto, unfolding(crate::specs::Inner::Greetings::inquiry_at))]
fn inquiry_of(bytes: &[u8]) -> Option<(Inquiry, &[u8])>
    ensures { Gives (λ x. (x.0, x.1.now)) result (inquiry_at bytes.now) }
{
    let Some((origin, rest)) = server_of(bytes) else {
        return None;
    };
    let Some((counts, rest)) = list_of(rest) else {
        return None;
    };
    Some((Inquiry { origin, counts }, rest))
}

#[tactic(auto, unfolding(crate::specs::Inner::Greetings::is_greeting_kind))]
fn is_greeting_kind(kind: u8) -> bool
    ensures { result ≡ is_greeting_kind_test kind }
{
    matches!(
        kind,
        KIND_HELLO
            | KIND_PROOF
            | KIND_DIGESTS
            | KIND_WELCOME
            | KIND_KNOWN
            | KIND_DIFFERS
            | KIND_DIGESTED
            | KIND_LIST
            | KIND_BECAME
            | KIND_LISTED
            | KIND_OUTCOME
    )
}

#[tactic(auto, unfolding(crate::specs::Inner::Greetings::greeting_reply_at))]
fn greeting_reply_of(kind: u8, bytes: &[u8]) -> Option<(Greeting, &[u8])>
    ensures { Gives (λ x. (x.0, x.1.now)) result (greeting_reply_at kind bytes.now) }
{
    match kind {
        KIND_WELCOME => {
            let Some((welcome, rest)) = welcome_of(bytes) else {
                return None;
            };
            Some((Greeting::Welcome(welcome), rest))
        }
        KIND_KNOWN => {
            let Some((known, rest)) = known_of(bytes) else {
                return None;
            };
            Some((Greeting::Known(known), rest))
        }
        KIND_DIFFERS => {
            let Some((origin, rest)) = server_of(bytes) else {
                return None;
            };
            Some((Greeting::Differs(origin), rest))
        }
        KIND_DIGESTED => {
            let Some((digests, rest)) = list_of(bytes) else {
                return None;
            };
            Some((Greeting::Digested(digests), rest))
        }
        KIND_LISTED => {
            let Some((page, rest)) = page_of(bytes) else {
                return None;
            };
            Some((Greeting::Listed(page), rest))
        }
        KIND_OUTCOME => {
            let Some((fate, rest)) = fate_of(bytes) else {
                return None;
            };
            Some((Greeting::Outcome(fate), rest))
        }
        _ => None,
    }
}

/// What a payload of this kind says, and the bytes after it.
#[tactic(auto, unfolding(crate::specs::Inner::Greetings::greeting_at))]
fn greeting_of(kind: u8, bytes: &[u8]) -> Option<(Greeting, &[u8])>
    ensures { Gives (λ x. (x.0, x.1.now)) result (greeting_at kind bytes.now) }
{
    match kind {
        KIND_HELLO => {
            let Some((hello, rest)) = hello_of(bytes) else {
                return None;
            };
            Some((Greeting::Hello(hello), rest))
        }
        KIND_PROOF => {
            let Some((proving, rest)) = proving_of(bytes) else {
                return None;
            };
            Some((Greeting::Proof(proving), rest))
        }
        KIND_DIGESTS => {
            let Some((inquiry, rest)) = inquiry_of(bytes) else {
                return None;
            };
            Some((Greeting::Digests(inquiry), rest))
        }
        KIND_LIST => {
            let Some((asked, rest)) = rows_asked_of(bytes) else {
                return None;
            };
            Some((Greeting::List(asked), rest))
        }
        KIND_BECAME => {
            let Some((asked, rest)) = fate_asked_of(bytes) else {
                return None;
            };
            Some((Greeting::Became(asked), rest))
        }
        _ => greeting_reply_of(kind, bytes),
    }
}

/// A kind and a payload, and the bytes after them.
#[derive(Clone, Copy)]
struct Unpacked<'a> {
    kind: u8,
    payload: &'a [u8],
    behind: &'a [u8],
}

/// The kind and the payload that the bytes begin with, after their length.
fn unpack(bytes: &[u8]) -> Result<Unpacked<'_>, DecodeFault>
    ensures { IsUnpacked bytes.now result }
{
    let [high, low, rest @ ..] = bytes else {
        return Err(DecodeFault::BadBody);
    };
    let len = usize::from(u16::from_be_bytes([*high, *low]));
    if MAX_FRAME_BYTES < len {
        return Err(DecodeFault::TooLong);
    }
    if rest.len() < len {
        return Err(DecodeFault::BadBody);
    }
    let (packed, behind) = rest.split_at(len);
    let [kind, payload @ ..] = packed else {
        return Err(DecodeFault::BadBody);
    };
    Ok(Unpacked {
        kind: *kind,
        payload,
        behind,
    })
}

/// The greeting of this kind and payload, all of it, where nothing stands after it.
fn unpacked_greeting(kind: u8, payload: &[u8], behind: &[u8]) -> Result<Greeting, DecodeFault>
    ensures { UnpackedAnswer kind payload.now behind.now result }
{
    if !is_greeting_kind(kind) {
        return Err(DecodeFault::BadKind);
    }
    match greeting_of(kind, payload) {
        None => Err(DecodeFault::BadBody),
        Some((_, [_, ..])) => Err(DecodeFault::Trailing),
        Some((greeting, [])) => match behind {
            [] => Ok(greeting),
            [_, ..] => Err(DecodeFault::Trailing),
        },
    }
}

/// The greeting that the bytes spell, all of them. Nothing is kept, whatever the answer is.
pub fn decode_greeting(bytes: &[u8]) -> Result<Greeting, DecodeFault>
    // What is answered is so.
    ensures answer { GreetingAnswer bytes.now result }
    // Nothing else is.
    ensures only { (other : Result Greeting DecodeFault) → GreetingAnswer bytes.now other → result ≡ other }
{
    match unpack(bytes) {
        Err(fault) => Err(fault),
        Ok(found) => unpacked_greeting(found.kind, found.payload, found.behind),
    }
}
