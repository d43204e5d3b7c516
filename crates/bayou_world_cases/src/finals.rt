//! What is final stays final. In runs at random servers tell views of themselves now and then, pull from one another, and fail; and the run goes
//! on. Two databases, of whatever servers and times, that have what each server had made itself by its view are one up to the last Write that
//! every view covers: the same Writes in the same order, with the same outcomes. Runs are found, or stand here, that show why no less will do.
ghost use Rattle.std.specs.Prelude.{◌<◌};

use crate::fixtures::{history, must_be_so, room, server_id, session_id};
use bayou_base::{Asks, Stamp, Value, Vector, Wid};
use bayou_lang::{Alt, Cond, Op, Program, RestingProgram, RestingWrite, Term};
use bayou_world::{Event, Reply, RunHistory};
use std::alloc::Global;
use std::process::Abort;

/// How many runs from the seed.
const RUNS: u32 = 20_000;

/// How many servers there are at most.
const MOST: usize = 4;

/// How many Writes each server may hold, by turns.
const LIMITS: [u32; 4] = [4, 8, 14, 20];

/// How many of the items in flight a server takes of, from the first on.
const ITEMS: u32 = 40;

/// How many runs must have a final Write that other databases have too; and of how many, without a part of the rule, it must be false.
const ENOUGH: u32 = RUNS / 400;

/// For each server a number of its Writes.
type Counts = [u32; MOST];

/// Numbers at random, from a seed: a linear congruential generator (Knuth).
#[derive(Clone, Copy)]
struct Dice {
    state: u64,
}

impl Dice {
    /// A number below this one, which isn't 0.
    fn below(&mut self, bound: u32) -> u32
        ensures { 0 < bound → result < bound }
    {
        self.state = self
            .state
            .wrapping_mul(6_364_136_223_846_793_005)
            .wrapping_add(1_442_695_040_888_963_407);
        (self.state >> 40) as u32 % bound.max(1)
    }

    fn chance(&mut self, one_in: u32) -> bool {
        self.below(one_in) == 0
    }

    fn server(&mut self, count: u8) -> u8 {
        self.below(u32::from(count.max(1))) as u8
    }
}

/// An event, of a server by its number. Each server has a session of its own.
#[derive(Clone, Copy)]
enum Move {
    /// A Write of this number is asked for, and the answer heard.
    Write(u8, i64),
    /// The server tells a view: its answer to a read, which is heard.
    Tell(u8),
    Offer(u8),
    /// The server sends what this offer hasn't.
    Collect(u8, u32),
    Take(u8, u32),
    /// The device call of this number fails, and nothing is kept.
    Fail(u8, u32),
    Reopen(u8),
    Restart(u8),
}

/// A program whose outcome depends on what stands before it: it puts its number where there is one that is not far below, or none.
fn program_of(rt: &impl Abort, alloc: Global, number: i64) -> RestingProgram {
    let least = number.wrapping_mul(37) % 64;
    let op = Op::Put(room(rt), Term::Lit(Value::Num(number)));
    let other = Alt::new(&[Cond::Absent(room(rt))], &[op.copy()]).expect(rt, "no alternative");
    let check = Cond::AtLeast(room(rt), least);
    let program = Program::new(&[check], &[op], &[other]).expect(rt, "no program");
    program.rest(alloc).expect(rt, "no memory")
}

/// A list of events as it grows.
#[derive(Drop)]
struct List {
    alloc: Global,
    events: Vec<Event>,
    /// How many offers were asked for.
    offers: u32,
}

impl List {
    fn new(alloc: Global) -> Self {
        List {
            alloc,
            events: Vec::new(alloc),
            offers: 0,
        }
    }

    fn push(&mut self, rt: &impl Abort, event: Event) {
        self.events.push(event).expect(rt, "no memory");
    }

    /// What the session of this number asks, and that it hears of it.
    fn ask(&mut self, rt: &impl Abort, who: u8, event: Event) {
        self.push(rt, event);
        self.push(rt, Event::Deliver(session_id(rt, who)));
    }

    fn add(&mut self, rt: &impl Abort, next: Move) {
        match next {
            Move::Write(at, number) => self.write(rt, at, number),
            Move::Tell(at) => self.tell(rt, at),
            Move::Offer(at) => self.push(rt, Event::Offer(server_id(rt, at))),
            Move::Collect(at, offer) => {
                let server = server_id(rt, at);
                self.push(rt, Event::Collect { server, offer });
            }
            Move::Take(at, item) => {
                let server = server_id(rt, at);
                self.push(rt, Event::Take { server, item });
            }
            Move::Fail(at, call) => {
                let server = server_id(rt, at);
                let kept = 0;
                self.push(rt, Event::Fuse { server, call, kept });
            }
            Move::Reopen(at) => self.push(rt, Event::Reopen(server_id(rt, at))),
            Move::Restart(at) => self.push(rt, Event::Restart(server_id(rt, at))),
        }
    }

    fn write(&mut self, rt: &impl Abort, at: u8, number: i64) {
        let (session, server) = (session_id(rt, at), server_id(rt, at));
        let program = program_of(rt, self.alloc, number);
        let event = Event::Write {
            session,
            server,
            program,
        };
        self.ask(rt, at, event);
    }

    fn tell(&mut self, rt: &impl Abort, at: u8) {
        let (session, server) = (session_id(rt, at), server_id(rt, at));
        let key = room(rt);
        let event = Event::Read {
            session,
            server,
            key,
        };
        self.ask(rt, at, event);
    }

    /// One server pulls from another. It takes what is in flight, but for an item now and then.
    fn pull(&mut self, rt: &impl Abort, dice: &mut Dice, to: u8, source: u8) {
        let offer = self.offers.saturating_sub(dice.below(2));
        self.add(rt, Move::Offer(to));
        self.add(rt, Move::Collect(source, offer));
        self.offers = self.offers.saturating_add(1);
        for item in 0..ITEMS {
            if !dice.chance(9) {
                self.add(rt, Move::Take(to, item));
            }
        }
    }

    /// Something happens, at servers below this number.
    fn grow(&mut self, rt: &impl Abort, dice: &mut Dice, count: u8, tells: bool) {
        let at = dice.server(count);
        match dice.below(11) {
            0..=3 => self.add(rt, Move::Write(at, i64::from(dice.below(64)))),
            4..=6 => {
                let source = dice.server(count);
                self.pull(rt, dice, at, source);
            }
            7 | 8 if tells => self.add(rt, Move::Tell(at)),
            9 => self.add(rt, Move::Fail(at, dice.below(3))),
            10 if dice.chance(4) => self.add(rt, Move::Restart(at)),
            _ => self.add(rt, Move::Reopen(at)),
        }
    }

    fn grow_by(&mut self, rt: &impl Abort, dice: &mut Dice, count: u8, tells: bool, many: u32) {
        for _ in 0..many {
            self.grow(rt, dice, count, tells);
        }
    }

    /// The server pulls from each other one, and mostly tells a view then.
    fn meet(&mut self, rt: &impl Abort, dice: &mut Dice, count: u8, to: u8) {
        for source in 0..count {
            self.pull(rt, dice, to, source);
        }
        if !dice.chance(8) {
            self.add(rt, Move::Tell(to));
        }
    }

    /// A run of so many servers: views are reported, also after a round of pulls, and then it goes on.
    fn fill(&mut self, rt: &impl Abort, dice: &mut Dice, count: u8) {
        let many = dice.below(14);
        self.grow_by(rt, dice, count, true, many);
        for to in 0..count {
            if !dice.chance(5) {
                self.meet(rt, dice, count, to);
            }
        }
        let more = dice.below(14);
        self.grow_by(rt, dice, count, false, more);
    }
}

/// The counts of the first servers.
fn counts_of(vector: &Vector) -> Counts {
    let mut counts = [0; MOST];
    for at in 0..MOST {
        counts[at] = vector.counts()[at];
    }
    counts
}

/// Which server tells a view, and which, if the answer tells one.
fn view_of<'a>(event: &Event, reply: Option<&'a Reply>) -> Option<(u8, &'a Vector)> {
    match (event, reply) {
        (Event::Read { server, .. }, Some(Reply::Read(Ok(seen)))) => Some((
            server.index,
            &seen.vector,
        )),
        _ => None,
    }
}

/// The last view that each server told, or that of nothing where it told none.
fn views_of(events: &[Event], replies: &[Reply]) -> [Counts; MOST] {
    let nothing = [0; MOST];
    let mut views = [nothing; MOST];
    for (at, event) in events.iter().enumerate() {
        if let Some((server, vector)) = view_of(event, replies.get(at)) {
            let counts = counts_of(vector);
            views[usize::from(server).min(MOST - 1)] = counts;
        }
    }
    views
}

/// What of views is asked for.
#[derive(Clone, Copy, PartialEq, Eq)]
enum Rule {
    /// All that the law asks for.
    Whole,
    /// A database needn't have what each server had made.
    WithoutOwn,
    /// A Write is known where one server's view covers it.
    OfOneView,
}

/// What views come to: how many Writes of each server every view covers, and how many each had made itself by its view.
#[derive(Clone, Copy)]
struct Claim {
    known: Counts,
    own: Counts,
}

impl Claim {
    fn of(views: &[Counts; MOST], count: u8, rule: Rule) -> Claim {
        let asked = if rule == Rule::OfOneView { 1 } else { count };
        let mut known = [0; MOST];
        let mut own = [0; MOST];
        for at in 0..MOST {
            known[at] = least_of(views, asked, at);
            if rule != Rule::WithoutOwn {
                own[at] = views[at][at];
            }
        }
        Claim { known, own }
    }

    fn knows(&self, wid: Wid) -> bool {
        wid.seq <= self.known[usize::from(wid.origin.index).min(MOST - 1)]
    }

    /// Whether a database with these counts has what each server had made.
    fn is_had(&self, counts: &Counts) -> bool {
        for at in 0..MOST {
            if counts[at] < self.own[at] {
                return false;
            }
        }
        true
    }

    /// How many Writes there are up to the last one that is known.
    fn final_in(&self, order: &[Piece]) -> usize {
        let mut end = 0;
        for (at, piece) in order.iter().enumerate() {
            if self.knows(piece.wid) {
                end = at.saturating_add(1);
            }
        }
        end
    }
}

/// The least count for this server in so many views.
fn least_of(views: &[Counts; MOST], count: u8, server: usize) -> u32 {
    let mut least = u32::MAX;
    for view in &views[..usize::from(count).min(MOST)] {
        least = least.min(view[server.min(MOST - 1)]);
    }
    least
}

/// A Write: its name, its stamp, the number that it asks for and the one that it puts.
#[derive(Clone, Copy)]
struct Piece {
    wid: Wid,
    stamp: Stamp,
    least: i64,
    number: i64,
}

fn piece_of(write: &RestingWrite) -> Piece {
    let least = match write.program().check().first() {
        Some(Cond::AtLeast(_, least)) => *least,
        _ => 0,
    };
    let number = match write.program().update().first() {
        Some(Op::Put(_, Term::Lit(Value::Num(number)))) => *number,
        _ => 0,
    };
    Piece {
        wid: write.wid(),
        stamp: write.stamp(),
        least,
        number,
    }
}

#[derive(Clone, Copy, PartialEq, Eq)]
enum Outcome {
    Updated,
    Merged,
    Nothing,
}

/// A Write and its outcome.
type Line = (Wid, Stamp, Outcome);

/// The outcome of the Write on this number in the room, or none, which becomes what the Write leaves.
fn outcome_of(number: &mut Option<i64>, piece: &Piece) -> Outcome {
    let outcome = match *number {
        Some(there) if there >= piece.least => Outcome::Updated,
        Some(_) => return Outcome::Nothing,
        None => Outcome::Merged,
    };
    *number = Some(piece.number);
    outcome
}

/// The Writes with their outcomes.
fn lines_of(rt: &impl Abort, alloc: Global, order: &[Piece]) -> Vec<Line> {
    let mut lines = Vec::new(alloc);
    let mut number = None;
    for piece in order {
        let outcome = outcome_of(&mut number, piece);
        lines
            .push((piece.wid, piece.stamp, outcome))
            .expect(rt, "no memory");
    }
    lines
}

/// A database that a server had, in stamp order.
#[derive(Drop)]
struct Database {
    order: Vec<Piece>,
    counts: Counts,
}

impl Database {
    fn new(alloc: Global) -> Self {
        Database {
            order: Vec::new(alloc),
            counts: [0; MOST],
        }
    }

    /// How many of its Writes come before this stamp.
    fn place_of(&self, stamp: Stamp) -> usize {
        for (at, piece) in self.order.iter().enumerate() {
            if stamp.is_before(piece.stamp) {
                return at;
            }
        }
        self.order.len()
    }

    fn add(&mut self, rt: &impl Abort, write: &RestingWrite) {
        let piece = piece_of(write);
        let place = self.place_of(piece.stamp).min(self.order.len());
        self.order.insert(place, piece).ok().expect(rt, "no memory");
        let origin = usize::from(piece.wid.origin.index).min(MOST - 1);
        self.counts[origin] = self.counts[origin].saturating_add(1);
    }
}

/// What is found in the databases of a run.
#[derive(Drop)]
struct Found {
    /// What is final in the first database that has what each server had made.
    lines: Option<Vec<Line>>,
    /// Whether another that has so much lacks the last final Write, or has a later one that is known.
    lacks: bool,
    /// Whether another has that, and after other Writes, or with another outcome of one.
    moves: bool,
    /// Whether another has later Writes too, and some are final.
    goes_on: bool,
}

impl Found {
    fn add(&mut self, rt: &impl Abort, alloc: Global, claim: &Claim, database: &Database) {
        if !claim.is_had(&database.counts) {
            return;
        }
        let order = database.order.as_slice();
        let end = claim.final_in(order).min(order.len());
        let lines = lines_of(rt, alloc, &order[..end]);
        let Some(first) = &self.lines else {
            self.lines = Some(lines);
            return;
        };
        let is_same = lines.as_slice() == first.as_slice();
        let ends_so = lines.as_slice().last() == first.as_slice().last();
        let goes_on = 0 < end && end < order.len();
        self.lacks = self.lacks || !ends_so;
        self.moves = self.moves || ends_so && !is_same;
        self.goes_on = self.goes_on || goes_on;
    }

    /// What the server has in the end.
    fn add_last(&mut self, rt: &impl Abort, alloc: Global, claim: &Claim, dump: &[RestingWrite]) {
        let mut database = Database::new(alloc);
        for write in dump {
            database.add(rt, write);
        }
        self.add(rt, alloc, claim, &database);
    }

    /// What the server had at each time.
    fn add_each(&mut self, rt: &impl Abort, alloc: Global, claim: &Claim, dump: &[RestingWrite]) {
        let mut database = Database::new(alloc);
        self.add(rt, alloc, claim, &database);
        for write in dump {
            database.add(rt, write);
            self.add(rt, alloc, claim, &database);
        }
    }

    fn stays(&self) -> bool {
        !self.lacks && !self.moves
    }
}

/// What is found in the databases that servers had at whatever time of a run, those at its end first.
fn found_in(rt: &impl Abort, alloc: Global, claim: &Claim, dumps: &[Vec<RestingWrite>]) -> Found {
    let mut found = Found {
        lines: None,
        lacks: false,
        moves: false,
        goes_on: false,
    };
    for dump in dumps {
        found.add_last(rt, alloc, claim, dump.as_slice());
    }
    for dump in dumps {
        found.add_each(rt, alloc, claim, dump.as_slice());
    }
    found
}

/// A run of the events at so many servers, by sessions that ask for nothing.
fn run(rt: &impl Abort, alloc: Global, count: u8, limit: u32, list: &List) -> Box<RunHistory> {
    let asks = [Asks::default(); MOST];
    history(rt, alloc, (count, limit), &asks, list.events.as_slice())
}

/// What came of the runs.
#[derive(Clone, Copy, Debug)]
struct Tally {
    /// In how many what was final stayed so.
    kept: u32,
    /// In how many some Write was final, and other databases had later ones.
    full: u32,
    /// In how many it moved where a database needn't have what each server had made.
    without_own: u32,
    /// In how many it moved where one server's view is enough.
    of_one_view: u32,
}

impl Tally {
    fn add(&mut self, rt: &impl Abort, alloc: Global, dice: &mut Dice, limit: u32) {
        let count = dice.server(MOST as u8).saturating_add(1);
        let mut list = List::new(alloc);
        list.fill(rt, dice, count);
        let history = run(rt, alloc, count, limit, &list);
        let views = views_of(list.events.as_slice(), history.replies.as_slice());
        self.add_views(rt, alloc, &views, count, history.dumps.as_slice());
    }

    fn add_views(
        &mut self,
        rt: &impl Abort,
        alloc: Global,
        views: &[Counts; MOST],
        count: u8,
        dumps: &[Vec<RestingWrite>],
    ) {
        let whole = found_in(rt, alloc, &Claim::of(views, count, Rule::Whole), dumps);
        let free = found_in(rt, alloc, &Claim::of(views, count, Rule::WithoutOwn), dumps);
        let one = found_in(rt, alloc, &Claim::of(views, count, Rule::OfOneView), dumps);
        self.kept = self.kept.saturating_add(u32::from(whole.stays()));
        self.full = self.full.saturating_add(u32::from(whole.goes_on));
        self.without_own = self.without_own.saturating_add(u32::from(free.moves));
        self.of_one_view = self.of_one_view.saturating_add(u32::from(one.moves));
    }

    /// Whether it was so in each run, with final Writes in enough of them; and wasn't in enough of them without a part of the rule.
    fn is_full(&self) -> bool {
        self.kept == RUNS
            && self.full > ENOUGH
            && self.without_own > ENOUGH
            && self.of_one_view > ENOUGH
    }
}

fn found_from(rt: &impl Abort, alloc: Global, seed: u64) -> Tally {
    let mut dice = Dice { state: seed };
    let mut tally = Tally {
        kept: 0,
        full: 0,
        without_own: 0,
        of_one_view: 0,
    };
    for number in 0..RUNS {
        let limit = LIMITS[number as usize % LIMITS.len()];
        tally.add(rt, alloc, &mut dice, limit);
        must_be_so(rt, tally.kept > number, number as usize);
    }
    tally
}

#[test]
fn what_is_final_stays_final(rt: HostRuntime) {
    let found = found_from(&rt, rt.alloc(), 1995);
    assert!(rt; found.is_full(), "{found:?}");
}

/// The second Write of server 1 is in doubt at server 0 as that tells its view. Server 0 forgets it, and makes one of its own with the same
/// clock, which comes before it.
static FORGOTTEN: [Move; 14] = [
    Move::Write(1, 1),
    Move::Write(1, 2),
    Move::Offer(0),
    Move::Collect(1, 0),
    Move::Take(0, 0),
    Move::Fail(0, 1),
    Move::Take(0, 1),
    Move::Tell(0),
    Move::Tell(1),
    Move::Reopen(0),
    Move::Write(0, 3),
    Move::Offer(1),
    Move::Collect(0, 1),
    Move::Take(1, 2),
];

/// Whether what is final stays so, where the view that server 0 told has so many Writes more of server 1.
fn stays_with(rt: &impl Abort, alloc: Global, more: u32) -> bool {
    let mut list = List::new(alloc);
    for next in &FORGOTTEN {
        list.add(rt, *next);
    }
    let history = run(rt, alloc, 2, 10, &list);
    let mut views = views_of(list.events.as_slice(), history.replies.as_slice());
    views[0][1] = views[0][1].saturating_add(more);
    let claim = Claim::of(&views, 2, Rule::Whole);
    found_in(rt, alloc, &claim, history.dumps.as_slice()).stays()
}

#[test]
fn a_view_with_the_write_in_doubt_is_none(rt: HostRuntime) {
    assert!(rt; stays_with(&rt, rt.alloc(), 0) && !stays_with(&rt, rt.alloc(), 1));
}
