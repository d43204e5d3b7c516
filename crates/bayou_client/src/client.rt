//! A session at whatever servers it reaches, with its share of the book.
ghost use Rattle.std.specs.Prelude.{◌≡◌, ◌+◌, ◌<◌, ◌≤◌, ℕ, true, List, None, Some, IfErr, IfSome, IsSome, option_map};
ghost use Rattle.std.specs.Io.KnownBytes.{Consumes, IsAtEnd};
ghost use Rattle.bayou_base.specs.declared.limits.TheConstants.{MAX_PLACES};
ghost use Rattle.bayou_client.specs.declared.asker.Asked.{Asked};
ghost use Rattle.bayou_client.specs.declared.fault.ClientFault.TheVariants.{AuditFull};
ghost use Rattle.bayou_client.specs.Exchange.{IsGone};
ghost use Rattle.bayou_client.specs.Inner.Spending.{Spends, as_told};
ghost use Rattle.bayou_client.specs.Operating.{Operates, asking_again, reading, writing};

use crate::asker::{Asker, Heard};
use crate::fault::{ClientFault, LinkFault};
use crate::link::Link;
use bayou_audit::{AuditBook, Ledgers, Share, Slip};
use bayou_base::{Accepted, Entry, Key, Seen, ServerId};
use bayou_lang::RestingProgram;
use bayou_session::Session;
use std::alloc::Global;
use std::io::{Read, Write};
use std::marker::Model;
use std::sync::Wait;

/// A session with its share of the book, and with what it asked last and may ask again, if anything.
#[derive(Drop)]
pub struct Client<K: Ledgers> {
    asker: Asker,
    share: Share<K>,
}

impl<K: Ledgers> Model for Client<K> {
    ghost use Rattle.std.specs.Prelude.{◌≡◌};
    ghost use Rattle.bayou_client.specs.Operating.{Sharing};

    ghost Value = { Sharing };

    ghost view = { λ c. record { session = c.asker.session; share = c.share; asked = c.asker.asked } };

    ghost invariant = { λ c. c.share.session ≡ c.asker.session.id };
}

// Spends the slip on the entry, or on nothing.
fn spend<K: Ledgers, T: Wait>(
    rt: &T,
    book: &AuditBook<K>,
    slip: Slip<K>,
    share: &mut Share<K>,
    entry: Option<Entry>,
)
    requires slip { slip ≡ share.old.session }
    requires out { 0 < share.old.totals.slips }
    requires entry { IfSome entry (λ entry. entry.session ≡ share.old.session) }
    ensures { Spends entry share.old share.new }
{
    match entry {
        None => book.void(rt, slip, share),
        Some(entry) => book.file(rt, slip, share, entry),
    }
}

// What a session hears whose operation had a place in the book.
fn told_as<A>(told: Result<A, LinkFault>) -> Result<A, ClientFault>
    ensures { result ≡ as_told told }
{
    Ok(told?)
}

impl<K: Ledgers> Client<K> {
    /// A session with its share. What the session asked before can't be asked again from here.
    pub fn new(session: Session, share: Share<K>) -> Self
        requires { share.session ≡ session.id }
        ensures { result ≡ record { session = record session { asked = None }; share = share; asked = None } }
    {
        Client {
            asker: Asker::asking_nothing(session),
            share,
        }
    }

    /// The two again.
    pub fn parts(self) -> (Session, Share<K>)
        ensures { (result.0 ≡ self.session) × (result.1 ≡ self.share) × (self.share.session ≡ self.session.id) }
    {
        (*self.asker.session(), self.share)
    }

    /// A session with its share, and with the Write that it may ask again, if there is one.
    pub fn resume(asker: Asker, share: Share<K>) -> Self
        requires { share.session ≡ asker.session.id }
        ensures { result ≡ record { session = asker.session; share = share; asked = asker.asked } }
    {
        Client { asker, share }
    }

    /// The session with the Write that it may ask again, and its share.
    pub fn into_parts(self) -> (Asker, Share<K>)
        ensures { (result.0 ≡ record { session = self.session; asked = self.asked }) × (result.1 ≡ self.share) × (self.share.session ≡ self.session.id) }
    {
        (self.asker, self.share)
    }

    /// How many places are left to the session, of [`MAX_PLACES`](bayou_base::MAX_PLACES).
    pub fn left(&self) -> u32
        ensures { result + self.now.session.begun ≡ MAX_PLACES }
    {
        self.asker.session().left()
    }

    /// The server at which the Write that was asked last may be asked again: none where the last operation begun was no Write of this
    /// client, or where it was reported as accepted. A link that [`again`](Client::again) is handed leads there.
    pub fn asked_at(&self) -> Option<ServerId>
        ensures { result ≡ option_map (λ asked. asked.server) self.now.asked }
    {
        match self.asker.asked() {
            Some(asked) => Some(asked.server),
            None => None,
        }
    }

    /// Reads the key at this server, which the link goes to, from a database that has what the session asks for. The read is entered in
    /// the book if it was served or refused.
    pub fn read<R: Read, W: Write, T: Wait>(
        &mut self,
        rt: &T,
        alloc: Global,
        book: &AuditBook<K>,
        link: &mut Link<R, W>,
        server: ServerId,
        key: &Key,
    ) -> Result<Seen, ClientFault>
        requires { self.old.session.begun < MAX_PLACES }
        ensures operates { (read : List ℕ) × Consumes (R.remaining link.old.channel.reader) (R.remaining link.new.channel.reader) read
            × Operates (reading self.old.session key.now) self.old self.new (W.contents link.old.channel.writer) (W.contents link.new.channel.writer) read link.old.is_closed link.new.is_closed
            (IsGone link.new.channel.read_failed link.new.channel.write_failed link.new.channel.turns_left (IsAtEnd (R.remaining link.new.channel.reader))) result }
        ensures full { IfErr result (λ fault. fault ≡ AuditFull → link.new ≡ link.old) }
        ensures closed { link.old.is_closed ≡ true → link.new ≡ link.old }
        ensures turns { link.new.channel.turns_left ≤ link.old.channel.turns_left }
    {
        let Ok(slip) = book.claim(rt, &mut self.share) else {
            return Err(ClientFault::AuditFull);
        };
        let Heard { told, entry } = self.asker.read(alloc, link, server, key);
        spend(rt, book, slip, &mut self.share, entry);
        told_as(told)
    }

    /// Has the program accepted as a Write at this server, which the link goes to and which has what the session asks for. The Write is
    /// entered in the book if it was accepted or refused. It is asked under a tag, and may be asked again until it is reported as accepted.
    pub fn write<R: Read, W: Write, T: Wait>(
        &mut self,
        rt: &T,
        alloc: Global,
        book: &AuditBook<K>,
        link: &mut Link<R, W>,
        server: ServerId,
        program: RestingProgram,
    ) -> Result<Accepted, ClientFault>
        requires { self.old.session.begun < MAX_PLACES }
        ensures operates { (read : List ℕ) × Consumes (R.remaining link.old.channel.reader) (R.remaining link.new.channel.reader) read
            × Operates (writing self.old.session server program) self.old self.new (W.contents link.old.channel.writer) (W.contents link.new.channel.writer) read link.old.is_closed link.new.is_closed
            (IsGone link.new.channel.read_failed link.new.channel.write_failed link.new.channel.turns_left (IsAtEnd (R.remaining link.new.channel.reader))) result }
        ensures full { IfErr result (λ fault. fault ≡ AuditFull → link.new ≡ link.old) }
        ensures closed { link.old.is_closed ≡ true → link.new ≡ link.old }
        ensures turns { link.new.channel.turns_left ≤ link.old.channel.turns_left }
    {
        let Ok(slip) = book.claim(rt, &mut self.share) else {
            return Err(ClientFault::AuditFull);
        };
        self.asker.ask(server, program);
        let Heard { told, entry } = self.asker.send(alloc, link);
        spend(rt, book, slip, &mut self.share, entry);
        told_as(told)
    }

    /// Asks once more for the Write that was asked last: at the server that [`asked_at`](Client::asked_at) names, which the link goes to, for
    /// the same program under the same tag, at the session's next place and with what it needs by now. What is reported of it, and what is
    /// entered, is as of a Write.
    pub fn again<R: Read, W: Write, T: Wait>(
        &mut self,
        rt: &T,
        alloc: Global,
        book: &AuditBook<K>,
        link: &mut Link<R, W>,
    ) -> Result<Accepted, ClientFault>
        requires left { self.old.session.begun < MAX_PLACES }
        requires asked { IsSome self.old.asked }
        ensures operates { (asked : Asked) × (self.old.asked ≡ Some asked)
            × (read : List ℕ) × Consumes (R.remaining link.old.channel.reader) (R.remaining link.new.channel.reader) read
            × Operates (asking_again self.old.session asked) self.old self.new (W.contents link.old.channel.writer) (W.contents link.new.channel.writer) read link.old.is_closed link.new.is_closed
            (IsGone link.new.channel.read_failed link.new.channel.write_failed link.new.channel.turns_left (IsAtEnd (R.remaining link.new.channel.reader))) result }
        ensures full { IfErr result (λ fault. fault ≡ AuditFull → link.new ≡ link.old) }
        ensures closed { link.old.is_closed ≡ true → link.new ≡ link.old }
        ensures turns { link.new.channel.turns_left ≤ link.old.channel.turns_left }
    {
        let Ok(slip) = book.claim(rt, &mut self.share) else {
            return Err(ClientFault::AuditFull);
        };
        self.asker.ask_again();
        let Heard { told, entry } = self.asker.send(alloc, link);
        spend(rt, book, slip, &mut self.share, entry);
        told_as(told)
    }
}
