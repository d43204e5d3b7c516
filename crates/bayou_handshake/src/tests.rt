//! Both ends, each over what the other sends.
use crate::client_end::{GreetingFault, greet_server};
use crate::server_end::{NotReceived, StoreServer, receive};
use bayou_base::{ServerId, Vector};
use bayou_frames::ChannelFault;
use bayou_greeting::{Nonces, StoreKey, Stranger, client_proof, server_proof};
use bayou_streams::CountedChannel;
use bayou_wire::layout::{GREETING_VERSION, NONCE_BYTES, PROOF_BYTES};
use bayou_wire::{
    Greeting, Hello, Known, Nonce, Proof, Proving, ServerCount, Welcome, encode_greeting,
};
use std::alloc::Global;
use std::process::Abort;

const HOME: &[u8] =
    b"bayou-key-1 home 000102030405060708090a0b0c0d0e0f101112131415161718191a1b1c1d1e1f";

const AWAY: &[u8] =
    b"bayou-key-1 away 000102030405060708090a0b0c0d0e0f101112131415161718191a1b1c1d1e1f";

const OTHER_HOME: &[u8] =
    b"bayou-key-1 home 100102030405060708090a0b0c0d0e0f101112131415161718191a1b1c1d1e1f";

fn server_id(rt: &impl Abort, index: u8) -> ServerId {
    ServerId::new(index).expect(rt, "no server")
}

fn three(rt: &impl Abort) -> ServerCount {
    ServerCount::new(3).expect(rt, "no count")
}

fn key_of(rt: &impl Abort, line: Option<&[u8]>) -> Option<StoreKey> {
    match line {
        None => None,
        Some(line) => Some(StoreKey::parse(line).expect(rt, "no key")),
    }
}

/// A client greets the second of three servers.
fn hello(rt: &impl Abort) -> Hello {
    Hello {
        version: GREETING_VERSION,
        asked: Some(server_id(rt, 1)),
        from: None,
        servers: Some(three(rt)),
        nonce: Nonce::new([7; NONCE_BYTES]),
    }
}

fn nonces() -> Nonces {
    Nonces {
        client: Nonce::new([7; NONCE_BYTES]),
        server: Nonce::new([9; NONCE_BYTES]),
    }
}

fn no_proof() -> Proof {
    Proof::new([0; PROOF_BYTES])
}

/// What the greetings spell, one after another.
fn text_of(rt: &impl Abort, alloc: Global, greetings: &[Greeting]) -> Vec<u8> {
    let mut text = Vec::new(alloc);
    for greeting in greetings {
        let more = encode_greeting(alloc, greeting).expect(rt, "no memory");
        text.extend_from_slice(&more).expect(rt, "no memory");
    }
    text
}

/// What comes of a greeting at the second of three servers, where who greets proves to have this key, and what is written then.
fn received(
    rt: &impl Abort,
    alloc: Global,
    kept: Option<&[u8]>,
    proved: Option<&[u8]>,
) -> (Option<NotReceived>, Vec<u8>) {
    let server = StoreServer {
        id: server_id(rt, 1),
        servers: three(rt),
        key: key_of(rt, kept),
    };
    let proof = match key_of(rt, proved) {
        None => no_proof(),
        Some(key) => client_proof(&key, &nonces()),
    };
    let came = [
        Greeting::Hello(hello(rt)),
        Greeting::Proof(Proving { proof, held: None }),
    ];
    let text = text_of(rt, alloc, &came);
    let mut channel = CountedChannel::new(text.as_slice(), Vec::new(alloc));
    let guest = receive(alloc, &server, nonces().server, &mut channel);
    (guest.err(), channel.into_parts().1)
}

/// The answer of the second of three servers of a store with this key.
fn welcome(rt: &impl Abort, line: Option<&[u8]>, index: u8) -> Welcome {
    let id = server_id(rt, index);
    let key = key_of(rt, line);
    let proof = match &key {
        None => no_proof(),
        Some(key) => server_proof(key, &nonces(), id, three(rt)),
    };
    let name = match key {
        None => None,
        Some(key) => Some(key.name),
    };
    Welcome {
        version: GREETING_VERSION,
        id,
        servers: three(rt),
        name,
        nonce: nonces().server,
        proof,
    }
}

fn known(rt: &impl Abort) -> Known {
    Known {
        vector: Vector::zero(),
        limit: 100,
        digests: None,
        without: Some(server_id(rt, 2)),
    }
}

/// What who greets with one key comes to at a server of a store with another.
fn greeted(
    rt: &impl Abort,
    alloc: Global,
    own: Option<&[u8]>,
    answer: &[Greeting],
) -> Result<Known, GreetingFault> {
    let text = text_of(rt, alloc, answer);
    let mut channel = CountedChannel::new(text.as_slice(), Vec::new(alloc));
    greet_server(alloc, &hello(rt), &key_of(rt, own), None, &mut channel)
}

#[test]
fn who_has_the_key_is_let_in(rt: HostRuntime) {
    let alloc = rt.alloc();
    for (kept, proved) in [(None, None), (None, Some(HOME)), (Some(HOME), Some(HOME))] {
        let (refused, written) = received(&rt, alloc, kept, proved);
        assert!(rt; refused.is_none());
        assert!(rt; written == text_of(&rt, alloc, &[Greeting::Welcome(welcome(&rt, kept, 1))]));
    }
}

#[test]
fn who_has_it_not_is_turned_away(rt: HostRuntime) {
    let alloc = rt.alloc();
    for proved in [None, Some(OTHER_HOME)] {
        let (refused, _) = received(&rt, alloc, Some(HOME), proved);
        assert!(rt; refused == Some(NotReceived::Stranger));
    }
}

#[test]
fn a_server_is_known_that_is_the_one_greeted(rt: HostRuntime) {
    let alloc = rt.alloc();
    for own in [None, Some(HOME)] {
        let answer = [
            Greeting::Welcome(welcome(&rt, own, 1)),
            Greeting::Known(known(&rt)),
        ];
        assert!(rt; greeted(&rt, alloc, own, &answer) == Ok(known(&rt)));
    }
}

#[test]
fn another_one_is_a_stranger(rt: HostRuntime) {
    let alloc = rt.alloc();
    let stranger = |own, theirs, index| {
        let answer = [
            Greeting::Welcome(welcome(&rt, theirs, index)),
            Greeting::Known(known(&rt)),
        ];
        greeted(&rt, alloc, own, &answer)
    };
    let third = server_id(&rt, 2);
    assert!(rt;
        stranger(Some(HOME), Some(HOME), 2)
            == Err(GreetingFault::Stranger(Stranger::OtherServer(third)))
    );
    assert!(rt; stranger(None, Some(HOME), 1) == Err(GreetingFault::Stranger(Stranger::WantsKey)));
    assert!(rt; stranger(Some(HOME), None, 1) == Err(GreetingFault::Stranger(Stranger::OpenStore)));
    assert!(rt;
        matches!(
            stranger(Some(HOME), Some(AWAY), 1),
            Err(GreetingFault::Stranger(Stranger::OtherStore(_)))
        )
    );
    assert!(rt;
        matches!(
            stranger(Some(HOME), Some(OTHER_HOME), 1),
            Err(GreetingFault::Stranger(Stranger::OtherStore(_)))
        )
    );
    assert!(rt; greeted(&rt, alloc, None, &[]) == Err(GreetingFault::Stranger(Stranger::Older)));
}

#[test]
fn a_greeting_that_is_cut_is_none(rt: HostRuntime) {
    let alloc = rt.alloc();
    let whole = text_of(&rt, alloc, &[Greeting::Welcome(welcome(&rt, None, 1))]);
    for count in 1..whole.len() {
        let mut channel = CountedChannel::new(&whole[..count], Vec::new(alloc));
        let told = greet_server(alloc, &hello(&rt), &None, None, &mut channel);
        assert!(rt; told == Err(GreetingFault::Channel(ChannelFault::Cut)));
    }
    let mut channel = CountedChannel::new(whole.as_slice(), Vec::new(alloc));
    let told = greet_server(alloc, &hello(&rt), &None, None, &mut channel);
    assert!(rt; told == Err(GreetingFault::TurnedAway));
}
