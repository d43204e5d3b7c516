//! What a session may ask again, whose link was cut after a request: until it begins a read, or another client holds it.
ghost use Rattle.std.specs.Prelude.{◌≡◌};
ghost use Rattle.bayou_audit.specs.Blanks.{AreBlanksOf, named};

use crate::fixtures::{key, resting_put, server_id};
use bayou_audit::{AuditBook, Blanks, Four, Ledgers, Share};
use bayou_base::{Asks, ServerId};
use bayou_client::{Client, ClientFault, Link, LinkFault};
use bayou_fakes::books::blanks;
use bayou_session::{FIRST_RUN, Session};
use std::alloc::Global;
use std::io;
use std::marker::Brand;
use std::process::Abort;
use std::sync::Wait;
use std::sync::ledger::Ledger;

fn is_first(server: Option<ServerId>) -> bool {
    match server {
        Some(server) => server.index == 0,
        None => false,
    }
}

/// Whether the session's Write at the first server is lost, over a link that is cut after the request.
fn loses_a_write<K: Ledgers, R: Wait + Abort>(
    rt: &R,
    alloc: Global,
    book: &AuditBook<K>,
    client: &mut Client<K>,
) -> bool {
    if client.left() == 0 {
        return false;
    }
    let reply: &[u8] = &[];
    let mut link = Link::new(reply, io::sink());
    let program = resting_put(rt, alloc, 1);
    match client.write(rt, alloc, book, &mut link, server_id(rt), program) {
        Ok(_) => false,
        Err(fault) => fault == ClientFault::Link(LinkFault::Lost),
    }
}

/// Whether its read there is lost so, and nothing may be asked again then.
fn reads_and_forgets<K: Ledgers, R: Wait + Abort>(
    rt: &R,
    alloc: Global,
    book: &AuditBook<K>,
    client: &mut Client<K>,
) -> bool {
    if client.left() == 0 {
        return false;
    }
    let reply: &[u8] = &[];
    let mut link = Link::new(reply, io::sink());
    let is_lost = client
        .read(rt, alloc, book, &mut link, server_id(rt), &key(rt))
        .is_err();
    is_lost && client.asked_at().is_none()
}

/// Whether a session may ask for nothing again once it has begun a read, or where another client holds it.
fn forgets<K: Ledgers, R: Wait + Abort>(
    rt: &R,
    alloc: Global,
    book: &AuditBook<K>,
    client: Client<K>,
) -> bool {
    let mut client = client;
    let is_first_lost = loses_a_write(rt, alloc, book, &mut client);
    let was_kept = is_first(client.asked_at());
    let (session, share) = client.parts();
    let mut client = Client::new(session, share);
    let is_lent = client.asked_at().is_none();
    let is_second_lost = loses_a_write(rt, alloc, book, &mut client);
    let is_kept = is_first(client.asked_at());
    is_first_lost
        && was_kept
        && is_lent
        && is_second_lost
        && is_kept
        && reads_and_forgets(rt, alloc, book, &mut client)
}

/// A session that asks for nothing, with the last of these shares.
fn asker<K: Ledgers>(rt: &impl Abort, shares: Vec<Share<K>>) -> Client<K> {
    let mut shares = shares;
    let share = shares.pop().expect(rt, "no share");
    Client::new(
        Session::new(share.session(), FIRST_RUN, Asks::default()),
        share,
    )
}

/// The same of a session at a new book.
fn goes<S, T, U, V, R>(rt: &R, alloc: Global, blanks: Blanks) -> bool
where
    S: Ledger + Send + Sync,
    T: Ledger + Send + Sync,
    U: Ledger + Send + Sync,
    V: Ledger + Send + Sync,
    R: Wait + Abort,
    requires blanks { AreBlanksOf blanks (named S.name S.parts) (named T.name T.parts) (named U.name U.parts) (named V.name V.parts) 1 }
{
    let (book, shares) = AuditBook::<Four<S, T, U, V>>::new(alloc, blanks, 1, 4).expect(
        rt, "no book",
    );
    forgets(rt, alloc, &book, asker(rt, shares))
}

#[test]
fn what_may_be_asked_again_is_forgotten(rt: HostRuntime) {
    assert!(rt; goes::<Brand, Brand, Brand, Brand, HostRuntime>(&rt, rt.alloc(), blanks(1)));
}
