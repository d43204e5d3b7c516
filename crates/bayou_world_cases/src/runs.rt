//! Lists of events at random, at four servers and by eight sessions that ask for this and that: the judge finds what was served
//! clean, in half of the lists also where device calls fail and servers are recovered. Where the same sessions ask for nothing, it
//! finds breaches of each guarantee.

use crate::failures::is_fault;
use crate::fixtures::{history, must_be_so, put, room, server_id, session_id};
use bayou_base::{Asks, Entry, ServerId, SessionId};
use bayou_fakes::dice::Dice;
use bayou_judge::{Guarantee, Verdict, judge, lend_dumps};
use bayou_server::{JournalFault, ReopenFault, StartFault, TakeFault, Took, WriteFault, Written};
use bayou_world::{Event, Reply, RunHistory};
use std::alloc::Global;
use std::process::Abort;

/// How many lists from the seed. In every other one device calls fail.
const LISTS: u32 = 400;

/// How many events a list has, but for some more at its end.
const EVENTS: usize = 300;

/// In so many rounds a list is made. After each but the last it is run, so that the next events can name what went in flight.
const ROUNDS: usize = 3;

/// How many Writes each server may hold, by turns.
const LIMITS: [u32; 4] = [6, 20, 100, 1_000];

/// Kinds of answers: see [`kind_of`].
const KINDS: usize = 43;

const ALL: Asks = Asks {
    ryw: true,
    mr: true,
    wfr: true,
    mw: true,
};

/// Items that were collected for a server: which server, the number of the first, and how many.
type Batch = (u8, u32, u32);

fn any_server(rt: &impl Abort, dice: &mut Dice) -> ServerId {
    server_id(rt, dice.below(4) as u8)
}

fn any_session(rt: &impl Abort, dice: &mut Dice) -> SessionId {
    session_id(rt, dice.below(8) as u8)
}

fn any_asks(dice: &mut Dice) -> Asks {
    Asks {
        ryw: dice.chance(2),
        mr: dice.chance(2),
        wfr: dice.chance(2),
        mw: dice.chance(2),
    }
}

fn asks_of_all(dice: &mut Dice) -> [Asks; 8] {
    let mut all = [Asks::default(); 8];
    for asks in &mut all {
        *asks = any_asks(dice);
    }
    all
}

/// A list of events as it grows.
#[derive(Drop)]
struct List {
    alloc: Global,
    events: Vec<Event>,
    /// The server of each offer.
    offers: Vec<u8>,
    batches: Vec<Batch>,
    /// Whether device calls fail.
    fails: bool,
}

impl List {
    fn new(alloc: Global, fails: bool) -> Self {
        List {
            alloc,
            fails,
            events: Vec::new(alloc),
            offers: Vec::new(alloc),
            batches: Vec::new(alloc),
        }
    }

    fn add(&mut self, rt: &impl Abort, event: Event) {
        self.events.push(event).expect(rt, "no memory");
    }

    /// A session tries something, and mostly hears of it at once.
    fn operate(&mut self, rt: &impl Abort, dice: &mut Dice) {
        let (session, server) = (any_session(rt, dice), any_server(rt, dice));
        let event = match dice.below(9) {
            0..=3 => Event::Read {
                session,
                server,
                key: room(rt),
            },
            4..=7 => Event::Write {
                session,
                server,
                program: put(rt, self.alloc, i64::from(dice.below(100))),
            },
            _ => Event::Again(session),
        };
        self.add(rt, event);
        self.hear(rt, session, dice);
    }

    /// The session hears of it, or loses it, or neither yet. Of what it heard or lost it may ask again at once.
    fn hear(&mut self, rt: &impl Abort, session: SessionId, dice: &mut Dice) {
        let event = match dice.below(8) {
            0..=5 => Event::Deliver(session),
            6 => Event::Lose(session),
            _ => return,
        };
        self.add(rt, event);
        if dice.chance(4) {
            self.add(rt, Event::Again(session));
        }
    }

    /// A server offers, and one collects for that offer or the one before.
    fn collect(&mut self, rt: &impl Abort, dice: &mut Dice) {
        let to = any_server(rt, dice);
        let server = any_server(rt, dice);
        let last = self.offers.len().min(EVENTS) as u32;
        let offer = last.saturating_sub(dice.below(2));
        self.offers.push(to.index).expect(rt, "no memory");
        self.add(rt, Event::Offer(to));
        self.add(rt, Event::Collect { server, offer });
    }

    /// A server is given what was collected for it not long ago, but for an item now and then.
    fn take(&mut self, rt: &impl Abort, dice: &mut Dice) {
        let back = dice.below(4) as usize + 1;
        let place = self.batches.len().saturating_sub(back);
        let Some((to, first, number)) = self.batches.get(place).copied() else {
            return;
        };
        let server = server_id(rt, to);
        for offset in 0..number.min(8) {
            let item = first.saturating_add(offset);
            if !dice.chance(10) {
                self.add(rt, Event::Take { server, item });
            }
        }
    }

    /// An event of a session alone, or one that names what isn't there.
    fn stray(&mut self, rt: &impl Abort, dice: &mut Dice) {
        let (session, server) = (any_session(rt, dice), any_server(rt, dice));
        let event = match dice.below(15) {
            0 => Event::Offer(server_id(rt, 4)),
            12 => Event::Fuse {
                server,
                call: 0,
                kept: 0,
            },
            13 => Event::Reopen(server_id(rt, 4)),
            14 => Event::Restart(server_id(rt, 4)),
            1 => Event::Collect {
                server,
                offer: 1_000,
            },
            2 => Event::Take {
                server,
                item: 1_000_000,
            },
            3 => Event::Read {
                session: session_id(rt, 8),
                server,
                key: room(rt),
            },
            4 => Event::Lose(session),
            5..=7 => Event::Deliver(session),
            _ => Event::File(session),
        };
        self.add(rt, event);
    }

    /// A device call is to fail, or a server is recovered.
    fn fail(&mut self, rt: &impl Abort, dice: &mut Dice) {
        let server = any_server(rt, dice);
        let event = match dice.below(6) {
            0 | 1 => Event::Fuse {
                server,
                call: dice.below(8),
                kept: dice.below(120) as usize,
            },
            2 => Event::Restart(server),
            _ => Event::Reopen(server),
        };
        self.add(rt, event);
    }

    /// So many events, or a few more.
    fn grow(&mut self, rt: &impl Abort, dice: &mut Dice, many: usize) {
        for _ in 0..EVENTS {
            if self.events.len() < many {
                self.grow_once(rt, dice);
            }
        }
    }

    fn grow_once(&mut self, rt: &impl Abort, dice: &mut Dice) {
        match dice.below(10) {
            0..=3 => self.operate(rt, dice),
            4 | 5 => self.collect(rt, dice),
            6 | 7 => self.take(rt, dice),
            8 if self.fails => self.fail(rt, dice),
            _ => self.stray(rt, dice),
        }
    }

    /// What a run of it kept and collected.
    fn learn(&mut self, rt: &impl Abort, replies: &[Reply]) {
        self.offers = offers_of(rt, self.alloc, self.events.as_slice(), replies);
        self.batches = batches_of(rt, self.alloc, self, replies);
    }

    /// Grows to all of its events, for sessions that ask for these.
    fn fill(&mut self, rt: &impl Abort, dice: &mut Dice, limit: u32, asks: &[Asks; 8]) {
        for round in 1..ROUNDS {
            self.grow(rt, dice, round * (EVENTS / ROUNDS));
            let history = run(rt, self.alloc, limit, asks, self.events.as_slice());
            self.learn(rt, history.replies.as_slice());
        }
        self.grow(rt, dice, EVENTS);
    }
}

/// The server of an offer that was kept.
fn offer_of(event: &Event, reply: Option<&Reply>) -> Option<u8> {
    match (event, reply) {
        (Event::Offer(server), Some(Reply::Kept(_))) => Some(server.index),
        _ => None,
    }
}

/// The server of each offer that was kept.
fn offers_of(rt: &impl Abort, alloc: Global, events: &[Event], replies: &[Reply]) -> Vec<u8> {
    let mut offers = Vec::new(alloc);
    for (at, event) in events.iter().enumerate() {
        if let Some(offer) = offer_of(event, replies.get(at)) {
            offers.push(offer).expect(rt, "no memory");
        }
    }
    offers
}

/// What was collected, and for which server: the one of that offer.
fn batch_of(offers: &[u8], event: &Event, reply: Option<&Reply>) -> Option<Batch> {
    let (Event::Collect { offer, .. }, Some(Reply::Flown { first, number })) = (event, reply) else {
        return None;
    };
    let to = offers.get(*offer as usize)?;
    if *number == 0 {
        return None;
    }
    Some((*to, *first, *number))
}

/// What was collected for which server.
fn batches_of(rt: &impl Abort, alloc: Global, list: &List, replies: &[Reply]) -> Vec<Batch> {
    let mut batches = Vec::new(alloc);
    for (at, event) in list.events.iter().enumerate() {
        if let Some(batch) = batch_of(list.offers.as_slice(), event, replies.get(at)) {
            batches.push(batch).expect(rt, "no memory");
        }
    }
    batches
}

/// A run of the events where sessions ask for these.
fn run(
    rt: &impl Abort,
    alloc: Global,
    limit: u32,
    asks: &[Asks; 8],
    events: &[Event],
) -> Box<RunHistory> {
    history(rt, alloc, (4, limit), asks, events)
}

/// The server that the event is of, if it is of one alone. Which one was asked again, the reply tells.
fn server_of(event: &Event, reply: Option<&Reply>) -> Option<ServerId> {
    match event {
        Event::Again(_) => match reply {
            Some(Reply::AskedAgain(server, _)) => Some(*server),
            _ => None,
        },
        Event::Write { server, .. } | Event::Take { server, .. } | Event::Fuse { server, .. } => {
            Some(*server)
        }
        Event::Reopen(server) | Event::Restart(server) => Some(*server),
        Event::Read { .. } | Event::Deliver(_) | Event::Lose(_) | Event::File(_) => None,
        Event::Offer(_) | Event::Collect { .. } => None,
    }
}

/// Whether each fault of a server has a fuse of that server before it, of its own.
fn are_paid(events: &[Event], replies: &[Reply]) -> bool {
    let mut fuses: [u32; 4] = [0; 4];
    for (at, event) in events.iter().enumerate() {
        if !pay(
            &mut fuses,
            server_of(event, replies.get(at)),
            replies.get(at),
        ) {
            return false;
        }
    }
    true
}

/// The server's fuses after a reply. Whether there was one for a fault.
fn pay(fuses: &mut [u32; 4], server: Option<ServerId>, reply: Option<&Reply>) -> bool {
    let (Some(server), Some(reply)) = (server, reply) else {
        return true;
    };
    let at = usize::from(server.index).min(3);
    if let Reply::Fused = reply {
        fuses[at] = fuses[at].saturating_add(1);
        return true;
    }
    if !is_fault(reply) {
        return true;
    }
    let is_paid = fuses[at] > 0;
    fuses[at] = fuses[at].saturating_sub(1);
    is_paid
}

/// Why it was skipped: by its event.
fn skip_of(event: &Event) -> usize {
    match event {
        Event::Read { .. } => 25,
        Event::Write { .. } => 26,
        Event::Deliver(_) => 27,
        Event::Lose(_) => 28,
        Event::Offer(_) => 29,
        Event::Collect { .. } => 30,
        Event::Take { .. } => 31,
        Event::Fuse { .. } => 32,
        Event::Reopen(_) => 33,
        Event::Restart(_) => 34,
        Event::File(_) => 35,
        Event::Again(_) => 36,
    }
}

/// Which kind of recovery, or of a refusal of one, the answer is.
fn recovery_of(reply: &Reply) -> usize {
    match reply {
        Reply::Reopened(Ok(reopened)) => { if reopened.adopted.is_none() { 19 } else { 20 } }
        Reply::Reopened(Err(ReopenFault::NotDown)) => 21,
        Reply::Reopened(Err(ReopenFault::Journal(JournalFault::Device))) => 22,
        Reply::Restarted(Ok(_)) => 23,
        Reply::Restarted(Err(StartFault::Journal(JournalFault::Device))) => 24,
        _ => KINDS,
    }
}

/// Which kind the answer to a Write that is asked again is.
fn repeat_of(answer: &Result<Written, WriteFault>) -> usize {
    match answer {
        Ok(Written::New(_)) => 37,
        Ok(Written::Known(_)) => 38,
        Err(WriteFault::Down) => 39,
        Err(WriteFault::Behind(_)) => 40,
        Err(WriteFault::LogFull) => 41,
        Err(WriteFault::Journal) => 42,
        Err(WriteFault::TagUsed | WriteFault::OutOfMemory) => KINDS,
    }
}

/// Which of the kinds below [`KINDS`] the answer is: each that there may be where memory isn't refused.
fn kind_of(event: &Event, reply: &Reply) -> usize {
    match reply {
        Reply::Read(Ok(_)) => 0,
        Reply::Read(Err(_)) => 1,
        Reply::Wrote(Ok(Written::New(_))) => 2,
        Reply::Wrote(Err(WriteFault::Behind(_))) => 3,
        Reply::Wrote(Err(WriteFault::LogFull)) => 4,
        Reply::AskedAgain(_, answer) => repeat_of(answer),
        Reply::Took(Ok(Took::New)) => 5,
        Reply::Took(Ok(Took::Had)) => 6,
        Reply::Took(Err(TakeFault::Gap)) => 7,
        Reply::Took(Err(TakeFault::LogFull)) => 8,
        Reply::Kept(_) => 9,
        Reply::Flown { .. } => 10,
        Reply::Delivered => 11,
        Reply::Dropped => 12,
        Reply::Filed => 13,
        Reply::Skipped => skip_of(event),
        Reply::Wrote(Err(WriteFault::Journal)) => 14,
        Reply::Wrote(Err(WriteFault::Down)) => 15,
        Reply::Took(Err(TakeFault::Journal)) => 16,
        Reply::Took(Err(TakeFault::Down)) => 17,
        Reply::Fused => 18,
        Reply::Reopened(_) | Reply::Restarted(_) => recovery_of(reply),
        Reply::Wrote(_) | Reply::Took(Err(_)) | Reply::NoMemory => KINDS,
    }
}

/// What came of the lists.
#[derive(Clone, Copy, Debug)]
struct Tally {
    /// How many runs the judge found clean.
    clean: u32,
    /// In how many no server had more faults than fuses, at any time.
    paid: u32,
    /// How many answers of each kind there were, and of none of them.
    kinds: [u32; KINDS + 1],
    /// How many breaches of each guarantee were found where nothing was asked for.
    broken: [u32; 4],
}

impl Tally {
    fn add_replies(&mut self, events: &[Event], replies: &[Reply]) {
        for (at, event) in events.iter().enumerate() {
            self.add_kind(event, replies.get(at));
        }
    }

    fn add_kind(&mut self, event: &Event, reply: Option<&Reply>) {
        let Some(reply) = reply else {
            return;
        };
        let kind = kind_of(event, reply).min(KINDS);
        self.kinds[kind] = self.kinds[kind].saturating_add(1);
    }

    fn add_breach(&mut self, verdict: Option<Verdict>) {
        let Some(Verdict::Broken(breach)) = verdict else {
            return;
        };
        let at = match breach.guarantee {
            Guarantee::ReadYourWrites => 0,
            Guarantee::MonotonicReads => 1,
            Guarantee::WritesFollowReads => 2,
            Guarantee::MonotonicWrites => 3,
        };
        self.broken[at] = self.broken[at].saturating_add(1);
    }

    /// The run with what is asked for, and the one where nothing is, which is judged as if everything were.
    fn add(&mut self, rt: &impl Abort, alloc: Global, dice: &mut Dice, limit: u32, fails: bool) {
        let asks = asks_of_all(dice);
        let mut list = List::new(alloc, fails);
        list.fill(rt, dice, limit, &asks);
        self.add_asked(rt, alloc, limit, &asks, list.events.as_slice());
        self.add_free(rt, alloc, limit, list.events.as_slice());
    }

    fn add_asked(
        &mut self,
        rt: &impl Abort,
        alloc: Global,
        limit: u32,
        asks: &[Asks; 8],
        events: &[Event],
    ) {
        let history = run(rt, alloc, limit, asks, events);
        self.add_history(alloc, events, &history);
    }

    fn add_history(&mut self, alloc: Global, events: &[Event], history: &RunHistory) {
        self.add_replies(events, history.replies.as_slice());
        if are_paid(events, history.replies.as_slice()) {
            self.paid = self.paid.saturating_add(1);
        }
        if verdict_on(alloc, history.served.as_slice(), history) == Some(Verdict::Clean) {
            self.clean = self.clean.saturating_add(1);
        }
    }

    fn add_free(&mut self, rt: &impl Abort, alloc: Global, limit: u32, events: &[Event]) {
        let free = run(rt, alloc, limit, &[Asks::default(); 8], events);
        let entries = asking_for_all(rt, alloc, free.served.as_slice());
        self.add_breach(verdict_on(alloc, entries.as_slice(), &free));
    }

    /// Whether each run was clean, no kind of answer is missing, and none other was among them.
    fn is_full(&self) -> bool {
        let (kinds, others) = (&self.kinds[..KINDS], self.kinds[KINDS]);
        self.clean == LISTS
            && self.paid == LISTS
            && !kinds.contains(&0)
            && others == 0
            && !self.broken.contains(&0)
    }
}

/// The verdict on the entries and what the servers hold, where there is one.
fn verdict_on(alloc: Global, entries: &[Entry], history: &RunHistory) -> Option<Verdict> {
    if history.dumps.len() != 4 {
        return None;
    }
    let lent = lend_dumps(history.dumps.as_slice());
    match judge(alloc, 4, entries, lent.as_slice()) {
        Ok(Ok(verdict)) => Some(verdict),
        Ok(Err(_)) | Err(_) => None,
    }
}

/// The entries, as if their sessions had asked for everything.
fn asking_for_all(rt: &impl Abort, alloc: Global, served: &[Entry]) -> Vec<Entry> {
    let mut entries = Vec::new(alloc);
    for entry in served {
        let mut other = entry.copy();
        other.asks = ALL;
        entries.push(other).expect(rt, "no memory");
    }
    entries
}

fn found_from(rt: &impl Abort, alloc: Global, seed: u64) -> Tally {
    let mut dice = Dice { state: seed };
    let mut tally = Tally {
        clean: 0,
        paid: 0,
        kinds: [0; KINDS + 1],
        broken: [0; 4],
    };
    for number in 0..LISTS {
        let limit = LIMITS[number as usize / 2 % LIMITS.len()];
        tally.add(rt, alloc, &mut dice, limit, number % 2 == 1);
        must_be_so(
            rt,
            tally.clean > number && tally.paid > number,
            number as usize,
        );
    }
    tally
}

#[test]
fn each_run_is_clean(rt: HostRuntime) {
    let found = found_from(&rt, rt.alloc(), 1994);
    assert!(rt; found.is_full(), "{found:?}");
}
