//! Histories at random, of up to forty entries over three servers and four sessions: the judge and its twin agree on each, and
//! each kind of answer is among theirs.
use crate::evidence::{COUNT, asked, asks_of, entry, put};
use crate::fixtures::server_id;
use crate::twin;
use bayou_base::{Entry, Key, ServerId, Stamp, Vector, What, Wid};
use bayou_fakes::dice::Dice;
use bayou_judge::{BadEvidence, Guarantee, Surveyed, Verdict, verdict_of};
use bayou_lang::RestingWrite;
use std::alloc::Global;
use std::process::Abort;

/// How many from each seed.
const HISTORIES: u32 = 1_000;

static ASKS: [&str; 8] = ["", "r", "m", "f", "w", "rm", "fw", "rmfw"];

fn vector_of(writes: &[RestingWrite]) -> Vector {
    let mut vector = Vector::zero();
    for write in writes {
        vector.raise(write.wid());
    }
    vector
}

fn clock_of(writes: &[RestingWrite]) -> u32 {
    let mut clock = 0;
    for write in writes {
        clock = clock.max(write.stamp().clock);
    }
    clock
}

/// Another Write of the same name, stamp and past.
fn other_of(rt: &impl Abort, alloc: Global, write: &RestingWrite) -> RestingWrite {
    let program = put(rt, alloc, 7);
    RestingWrite::new(write.wid(), write.stamp(), *write.deps(), program)
}

/// Two Writes that stand side by side are swapped, or the first one of them is removed or is another.
fn spoil_at(rt: &impl Abort, alloc: Global, list: &mut Vec<RestingWrite>, at: usize, kind: u32) {
    if at >= list.len().saturating_sub(1) {
        return;
    }
    match kind {
        0 => list.swap(at, at + 1),
        1 => {
            let _ = list.remove(at);
        }
        _ => list[at] = other_of(rt, alloc, &list[at]),
    }
}

/// Three servers, and sessions that go from one to the other, whatever they ask for.
#[derive(Drop)]
struct World {
    alloc: Global,
    dumps: Vec<Vec<RestingWrite>>,
    entries: Vec<Entry>,
    /// The last place of each session, and which of the asks are its.
    places: [(u32, usize); 4],
}

impl World {
    fn new(rt: &impl Abort, alloc: Global, dice: &mut Dice) -> Self {
        let mut dumps = Vec::new(alloc);
        for _ in 0..COUNT {
            dumps.push(Vec::new(alloc)).expect(rt, "no memory");
        }
        let mut places = [(0, 0); 4];
        for place in &mut places {
            *place = (0, dice.below(8) as usize);
        }
        World {
            alloc,
            dumps,
            entries: Vec::new(alloc),
            places,
        }
    }

    fn list(&self, server: u8) -> &[RestingWrite] {
        match self.dumps.get(usize::from(server)) {
            Some(list) => list.as_slice(),
            None => &[],
        }
    }

    fn take(&mut self, rt: &impl Abort, server: u8, write: RestingWrite) {
        if let Some(list) = self.dumps.get_mut(usize::from(server)) {
            list.push(write).expect(rt, "no memory");
        }
    }

    /// An entry tells of the session's next operation at the server.
    fn tell(&mut self, rt: &impl Abort, dice: &mut Dice, server: u8, what: What) {
        let session = dice.below(4) as u8;
        let (place, asks) = self.places[usize::from(session)];
        let next = place.saturating_add(1).saturating_add(dice.below(2));
        self.places[usize::from(session)] = (next, asks);
        let entry = entry(rt, asks_of(ASKS[asks % 8]), (session, next, server), what);
        self.entries.push(entry).expect(rt, "no memory");
    }

    fn read(&mut self, rt: &impl Abort, dice: &mut Dice, server: u8) {
        let vector = vector_of(self.list(server));
        self.tell(rt, dice, server, What::Read(Key::default(), vector));
    }

    /// The server makes its next Write, which now and then no entry tells of.
    fn write(&mut self, rt: &impl Abort, dice: &mut Dice, server: u8) {
        let id = server_id(rt, server);
        let deps = vector_of(self.list(server));
        let clock = clock_of(self.list(server)).saturating_add(1);
        let seq = deps.get(id).saturating_add(1);
        let wid = Wid::new(id, seq).expect(rt, "no name");
        let stamp = Stamp::new(clock, id).expect(rt, "no stamp");
        let program = put(rt, self.alloc, i64::from(dice.below(3)));
        self.take(rt, server, RestingWrite::new(wid, stamp, deps, program));
        if !dice.chance(8) {
            self.tell(rt, dice, server, What::Write(wid, stamp, deps));
        }
    }

    /// The one server takes what it lacks of the other's, or the first of that.
    fn pull(&mut self, rt: &impl Abort, dice: &mut Dice, to: u8, from: u8) {
        for place in 0..self.list(from).len() {
            if dice.chance(6) {
                return;
            }
            self.pull_one(rt, to, from, place);
        }
    }

    /// The one server takes the other's Write at this place, if it lacks it.
    fn pull_one(&mut self, rt: &impl Abort, to: u8, from: u8, place: usize) {
        let Some(write) = self.list(from).get(place) else {
            return;
        };
        if !twin::has(self.list(to), write.wid()) {
            let copy = write.copy(self.alloc).expect(rt, "no memory");
            self.take(rt, to, copy);
        }
    }

    /// Something happens.
    fn step(&mut self, rt: &impl Abort, dice: &mut Dice) {
        let server = dice.below(3) as u8;
        match dice.below(8) {
            0..=2 => self.read(rt, dice, server),
            3 | 4 => self.write(rt, dice, server),
            5 | 6 => {
                let from = dice.below(3) as u8;
                self.pull(rt, dice, server, from);
            }
            _ => self.tell(rt, dice, server, What::Refused),
        }
    }

    /// One entry is changed, or told again.
    fn forge(&mut self, rt: &impl Abort, dice: &mut Dice) {
        let many = self.entries.len();
        let other = dice.below(40) as usize % many.max(1);
        if many == 0 {
            return;
        }
        let at = dice.below(40) as usize % many.max(1);
        let kind = dice.below(5);
        let server = server_id(rt, dice.below(4) as u8);
        let asks = asks_of(ASKS[dice.below(8) as usize % 8]);
        match kind {
            0 => self.entries[at].place = self.entries[other].place,
            1 => self.entries[at].server = server,
            2 => self.entries[at].asks = asks,
            3 => self.entries[at].what = self.entries[other].what.copy(),
            _ => {
                let copy = self.entries[other].copy();
                self.entries.push(copy).expect(rt, "no memory");
            }
        }
    }

    /// One dump is changed.
    fn spoil(&mut self, rt: &impl Abort, dice: &mut Dice) {
        let server = dice.below(3) as u8;
        let many = self.list(server).len();
        let at = dice.below(40) as usize % many.max(1);
        let kind = dice.below(3);
        if let Some(list) = self.dumps.get_mut(usize::from(server)) {
            spoil_at(rt, self.alloc, list, at, kind);
        }
    }
}

/// A history from these dice, of which now and then an entry or a dump is changed.
fn history(rt: &impl Abort, alloc: Global, dice: &mut Dice) -> World {
    let mut world = World::new(rt, alloc, dice);
    let steps = dice.below(41);
    for _ in 0..steps {
        world.step(rt, dice);
    }
    if dice.chance(8) {
        world.forge(rt, dice);
    }
    if dice.chance(8) {
        world.spoil(rt, dice);
    }
    world
}

/// Which kind of answer it is: clean, a breach of one of the four guarantees, a bad dump, or a forged entry.
fn kind_of(answer: Result<Verdict, BadEvidence>) -> usize {
    match answer {
        Ok(Verdict::Clean) => 0,
        Ok(Verdict::Broken(breach)) => match breach.guarantee {
            Guarantee::ReadYourWrites => 1,
            Guarantee::MonotonicReads => 2,
            Guarantee::WritesFollowReads => 3,
            Guarantee::MonotonicWrites => 4,
        },
        Err(BadEvidence::BadDump(_, _)) => 5,
        Err(BadEvidence::Forged(_)) => 6,
    }
}

/// The verdict that a finished survey gives.
fn told_by(
    entries: &[Entry],
    survey: &Result<Vec<Surveyed>, BadEvidence>,
) -> Result<Verdict, BadEvidence> {
    match survey {
        Ok(list) => Ok(verdict_of(entries, list.as_slice())),
        Err(bad) => Err(*bad),
    }
}

/// What judge and survey answer to the history, where their twins answer so too, and the survey gives the same verdict.
fn agreed(rt: &impl Abort, alloc: Global, world: &World) -> Option<Result<Verdict, BadEvidence>> {
    let entries = world.entries.as_slice();
    let dumps = world.dumps.as_slice();
    let (verdict, survey) = asked(rt, alloc, entries, dumps);
    let are_same = verdict == twin::judge(COUNT, entries, dumps)
        && verdict == told_by(entries, &survey)
        && survey == twin::survey(rt, alloc, COUNT, entries, dumps);
    are_same.then_some(verdict)
}

/// How many answers of each kind come from the dice, and the number of the first history of which the twin answers otherwise.
fn answers(rt: &impl Abort, alloc: Global, seed: u64) -> ([u32; 7], Option<u32>) {
    let mut dice = Dice { state: seed };
    let mut kinds = [0_u32; 7];
    for number in 0..HISTORIES {
        let world = history(rt, alloc, &mut dice);
        let Some(verdict) = agreed(rt, alloc, &world) else {
            return (kinds, Some(number));
        };
        let kind = kind_of(verdict) % 7;
        kinds[kind] = kinds[kind].saturating_add(1);
    }
    (kinds, None)
}

#[test]
fn the_judge_is_its_twin(rt: HostRuntime) {
    for seed in [1994, 1997] {
        let (kinds, other) = answers(&rt, rt.alloc(), seed);
        let is_each = !kinds.contains(&0);
        assert!(rt; is_each && other.is_none(), "{seed} {kinds:?} {other:?}");
    }
}
