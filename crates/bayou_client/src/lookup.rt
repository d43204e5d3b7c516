//! What a session asks beside one key: rows of a database, and what became of a Write.
ghost use Rattle.std.specs.Prelude.{◌≡◌, ◌≢◌, ◌<◌, ◌≤◌, ℕ, true, List, MatchOption, None, codes};
ghost use Rattle.std.specs.Io.KnownBytes.{Consumes, IsAtEnd};
ghost use Rattle.bayou_base.specs.declared.entry.What.TheVariants as whats;
ghost use Rattle.bayou_base.specs.declared.limits.TheConstants.{MAX_PLACES};
ghost use Rattle.bayou_base.specs.declared.refusal.Refusal.{Refusal as Refused};
ghost use Rattle.bayou_client.specs.Exchange.{IsGone};
ghost use Rattle.bayou_client.specs.Inner.Fetching.{Fetches};
ghost use Rattle.bayou_client.specs.Lookups.{HearsOf, IsUnanswered, JudgesReply, LookupEnds, asking_after, asks_fate, asks_rows, listed_key, listing};
ghost use Rattle.bayou_client.specs.Operating.{entered_of};
ghost use Rattle.bayou_wire.specs.declared.frame.Frame.TheVariants as frames;
ghost use Rattle.bayou_wire.specs.declared.greeting.Greeting.TheVariants as greetings;
ghost use Rattle.bayou_wire.specs.declared.lookup.Fate.{Fate as Became};
ghost use Rattle.bayou_wire.specs.declared.lookup.Page.{Page as Told};
ghost use Rattle.bayou_wire.specs.declared.lookup.RowsAsked.{RowsAsked as Rows};
ghost use Rattle.bayou_wire.specs.Forms.{frame_of};
ghost use Rattle.bayou_wire.specs.Greetings.{greeting_bytes};

use crate::asker::{Asker, Heard, entry_of};
use crate::fault::LinkFault;
use crate::link::{ANY_KEY, Link, is_answered};
use arrayvec::ArrayVec;
use bayou_base::limits::MAX_FRAME_BYTES;
use bayou_base::{Key, Prefix, Refusal, Seen, ServerId, Value, Vector, What};
use bayou_frames::send;
use bayou_handshake::read_text;
use bayou_wire::layout::LENGTH_BYTES;
use bayou_wire::{
    Fate, FateAsked, Greeting, Page, PlainFrame, RowsAsked, decode_frame, decode_greeting,
    encode_greeting,
};
use std::alloc::Global;
use std::io::{Read, Write};

/// How many bytes a reply has at the most, its length first.
const MAX_REPLY_BYTES: usize = LENGTH_BYTES + MAX_FRAME_BYTES;

// Sends what is asked, and reads the bytes of its reply. The link is closed as sending begins.
fn fetch<R: Read, W: Write>(
    alloc: Global,
    link: &mut Link<R, W>,
    asked: &Greeting,
) -> Result<ArrayVec<u8, MAX_REPLY_BYTES>, LinkFault>
    ensures fetches { (read : List ℕ) × Consumes (R.remaining link.old.channel.reader) (R.remaining link.new.channel.reader) read
        × Fetches (λ text. text.items) (greeting_bytes asked.now) (W.contents link.old.channel.writer) (W.contents link.new.channel.writer) read link.old.is_closed link.new.is_closed
        (IsGone link.new.channel.read_failed link.new.channel.write_failed link.new.channel.turns_left (IsAtEnd (R.remaining link.new.channel.reader))) result }
    ensures closed { link.old.is_closed ≡ true → link.new ≡ link.old }
    ensures turns { link.new.channel.turns_left ≤ link.old.channel.turns_left }
{
    if link.is_closed {
        return Err(LinkFault::Lost);
    }
    let request = encode_greeting(alloc, asked)?;
    link.is_closed = true;
    send(&mut link.channel, &request)?;
    let text = read_text(&mut link.channel)?;
    if text.is_empty() {
        return Err(LinkFault::Lost);
    }
    Ok(text)
}

// The refusal that a frame is, if it is one.
fn refusal_of(frame: PlainFrame) -> Option<Refusal>
    ensures { MatchOption result ((refusal : Refused) → frame_of frame ≢ frames.Refused refusal) (λ refusal. frame_of frame ≡ frames.Refused refusal) }
{
    match frame {
        PlainFrame::Refused(refusal) => Some(refusal),
        _ => None,
    }
}

// What a reply is that isn't the answer: a refusal, or no reply.
fn unanswered(text: &[u8]) -> LinkFault
    ensures { IsUnanswered text.now result }
{
    let frame = match decode_frame(text) {
        Ok(frame) => frame,
        Err(_) => return LinkFault::BadFrame,
    };
    let Some(refusal) = refusal_of(frame) else {
        return LinkFault::BadFrame;
    };
    if refusal.refuses_operation() {
        LinkFault::Refused(refusal)
    } else {
        LinkFault::BadFrame
    }
}

// The page that a greeting is, if it is one.
fn page_of(greeting: Greeting) -> Option<Page>
    ensures { MatchOption result ((page : Told) → greeting ≢ greetings.Listed page) (λ page. greeting ≡ greetings.Listed page) }
{
    match greeting {
        Greeting::Listed(page) => Some(page),
        _ => None,
    }
}

// What became of a Write, as a greeting tells it, if it does.
fn fate_of(greeting: Greeting) -> Option<Fate>
    ensures { MatchOption result ((fate : Became) → greeting ≢ greetings.Outcome fate) (λ fate. greeting ≡ greetings.Outcome fate) }
{
    match greeting {
        Greeting::Outcome(fate) => Some(fate),
        _ => None,
    }
}

// The page of rows that a whole reply is.
fn page_in(text: &[u8], need: &Vector) -> Result<Page, LinkFault>
    ensures { (asked : Rows) → asked.need ≡ need.now → JudgesReply (asks_rows asked) text.now result }
{
    let greeting = match decode_greeting(text) {
        Ok(greeting) => greeting,
        Err(_) => return Err(unanswered(text)),
    };
    let Some(page) = page_of(greeting) else {
        return Err(unanswered(text));
    };
    if !page.vector.dominates(need) {
        return Err(unanswered(text));
    }
    Ok(page)
}

// What became of a Write, by a whole reply.
fn fate_in(text: &[u8], asked: &FateAsked) -> Result<Fate, LinkFault>
    ensures { JudgesReply (asks_fate asked.now) text.now result }
{
    let greeting = match decode_greeting(text) {
        Ok(greeting) => greeting,
        Err(_) => return Err(unanswered(text)),
    };
    let Some(fate) = fate_of(greeting) else {
        return Err(unanswered(text));
    };
    if !fate.vector.dominates(&asked.need) {
        return Err(unanswered(text));
    }
    Ok(fate)
}

impl<R: Read, W: Write> Link<R, W> {
    // Asks for rows, of a server that has what is needed.
    fn list(&mut self, alloc: Global, asked: RowsAsked) -> Result<Page, LinkFault>
        ensures ends { (read : List ℕ) × Consumes (R.remaining self.old.channel.reader) (R.remaining self.new.channel.reader) read
            × LookupEnds (asks_rows asked) (W.contents self.old.channel.writer) (W.contents self.new.channel.writer) read self.old.is_closed self.new.is_closed
            (IsGone self.new.channel.read_failed self.new.channel.write_failed self.new.channel.turns_left (IsAtEnd (R.remaining self.new.channel.reader))) result }
        ensures closed { self.old.is_closed ≡ true → self.new ≡ self.old }
        ensures turns { self.new.channel.turns_left ≤ self.old.channel.turns_left }
    {
        let need = asked.need;
        let text = fetch(alloc, self, &Greeting::List(asked))?;
        let told = page_in(text.as_slice(), &need);
        self.is_closed = !is_answered(&told);
        told
    }

    /// What became of a Write, by a server that has what is needed: to who asks of no session.
    pub fn became(&mut self, alloc: Global, asked: FateAsked) -> Result<Fate, LinkFault>
        ensures ends { (read : List ℕ) × Consumes (R.remaining self.old.channel.reader) (R.remaining self.new.channel.reader) read
            × LookupEnds (asks_fate asked) (W.contents self.old.channel.writer) (W.contents self.new.channel.writer) read self.old.is_closed self.new.is_closed
            (IsGone self.new.channel.read_failed self.new.channel.write_failed self.new.channel.turns_left (IsAtEnd (R.remaining self.new.channel.reader))) result }
        ensures closed { self.old.is_closed ≡ true → self.new ≡ self.old }
        ensures turns { self.new.channel.turns_left ≤ self.old.channel.turns_left }
    {
        let text = fetch(alloc, self, &Greeting::Became(asked))?;
        let told = fate_in(text.as_slice(), &asked);
        self.is_closed = !is_answered(&told);
        told
    }
}

// The key by which what isn't of one key is entered.
fn any_key() -> Key
    ensures { result ≡ codes "a" }
{
    let Ok(key) = Key::new(ANY_KEY) else {
        unreachable!();
    };
    key
}

// The key by which rows are entered.
fn key_listed(prefix: &Prefix, rows: &[(Key, Value)]) -> Key
    ensures { result ≡ listed_key prefix.now rows.now }
{
    match (rows, prefix.first_key()) {
        ([row, ..], _) => row.0.copy(),
        ([], Some(first)) => first,
        ([], None) => any_key(),
    }
}

// What is entered of rows, if anything.
fn what_was_listed(prefix: &Prefix, told: &Result<Page, LinkFault>) -> Option<What>
    ensures { result ≡ entered_of (λ page. whats.Read (listed_key prefix.now page.rows.items) page.vector) told.now }
{
    match told {
        Ok(page) => Some(What::Read(key_listed(prefix, page.rows.as_slice()), page.vector)),
        Err(LinkFault::Refused(_)) => Some(What::Refused),
        Err(LinkFault::Lost | LinkFault::BadFrame | LinkFault::OutOfMemory) => None,
    }
}

// What is entered of what became of a Write, if anything.
fn what_was_asked(told: &Result<Fate, LinkFault>) -> Option<What>
    ensures { result ≡ entered_of (λ fate. whats.Read (codes "a") fate.vector) told.now }
{
    match told {
        Ok(fate) => Some(What::Read(any_key(), fate.vector)),
        Err(LinkFault::Refused(_)) => Some(What::Refused),
        Err(LinkFault::Lost | LinkFault::BadFrame | LinkFault::OutOfMemory) => None,
    }
}

// That a server held this, as a read of a session sees it.
fn seen_at(vector: Vector) -> Seen
    ensures { result ≡ record { value = None; vector = vector } }
{
    Seen {
        value: None,
        vector,
    }
}

// What is asked, where this is needed.
fn asked_with(asked: &RowsAsked, need: Vector) -> RowsAsked
    ensures { result ≡ record asked.now { need = need } }
{
    let after = match &asked.after {
        Some(key) => Some(key.copy()),
        None => None,
    };
    RowsAsked {
        need,
        prefix: asked.prefix.copy(),
        after,
        most: asked.most,
    }
}

impl Asker {
    /// Asks this server, which the link goes to, for rows of a database that has what the session asks for, and what is asked beside. It is entered as
    /// a read where it was served or refused: of its first row's key, or of what its keys begin with.
    pub fn list<R: Read, W: Write>(
        &mut self,
        alloc: Global,
        link: &mut Link<R, W>,
        server: ServerId,
        asked: &RowsAsked,
    ) -> Heard<Page>
        requires { self.old.session.begun < MAX_PLACES }
        ensures hears { (read : List ℕ) × Consumes (R.remaining link.old.channel.reader) (R.remaining link.new.channel.reader) read
            × HearsOf (listing self.old.session asked.now) server self.old self.new (W.contents link.old.channel.writer) (W.contents link.new.channel.writer) read link.old.is_closed link.new.is_closed
            (IsGone link.new.channel.read_failed link.new.channel.write_failed link.new.channel.turns_left (IsAtEnd (R.remaining link.new.channel.reader))) result }
        ensures closed { link.old.is_closed ≡ true → link.new ≡ link.old }
        ensures turns { link.new.channel.turns_left ≤ link.old.channel.turns_left }
    {
        let need = self.session.need_read().join(&asked.need);
        let place = self.session.begin();
        self.asked = None;
        let told = link.list(alloc, asked_with(asked, need));
        let what = what_was_listed(&asked.prefix, &told);
        let entry = entry_of(&self.session, place, server, what);
        match told {
            Ok(page) => {
                self.session.saw(&seen_at(page.vector));
                Heard {
                    told: Ok(page),
                    entry,
                }
            }
            Err(fault) => Heard {
                told: Err(fault),
                entry,
            },
        }
    }

    /// Asks this server, which the link goes to, what became of a Write, by a log that has what the session asks for, and what is asked beside. It is
    /// entered as a read where it was served or refused.
    pub fn became<R: Read, W: Write>(
        &mut self,
        alloc: Global,
        link: &mut Link<R, W>,
        server: ServerId,
        asked: &FateAsked,
    ) -> Heard<Fate>
        requires { self.old.session.begun < MAX_PLACES }
        ensures hears { (read : List ℕ) × Consumes (R.remaining link.old.channel.reader) (R.remaining link.new.channel.reader) read
            × HearsOf (asking_after self.old.session asked.now) server self.old self.new (W.contents link.old.channel.writer) (W.contents link.new.channel.writer) read link.old.is_closed link.new.is_closed
            (IsGone link.new.channel.read_failed link.new.channel.write_failed link.new.channel.turns_left (IsAtEnd (R.remaining link.new.channel.reader))) result }
        ensures closed { link.old.is_closed ≡ true → link.new ≡ link.old }
        ensures turns { link.new.channel.turns_left ≤ link.old.channel.turns_left }
    {
        let need = self.session.need_read().join(&asked.need);
        let place = self.session.begin();
        self.asked = None;
        let wid = asked.wid;
        let told = link.became(alloc, FateAsked { need, wid });
        let entry = entry_of(&self.session, place, server, what_was_asked(&told));
        match told {
            Ok(fate) => {
                self.session.saw(&seen_at(fate.vector));
                Heard {
                    told: Ok(fate),
                    entry,
                }
            }
            Err(fault) => Heard {
                told: Err(fault),
                entry,
            },
        }
    }
}
