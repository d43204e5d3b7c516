//! Rows that are put into a store, at one server, under names by which each Write acts once.
ghost use Rattle.std.specs.Prelude.{◌≡◌, ◌<◌, ◌≤◌, IfErr, IfOk, None, length, map};
ghost use Rattle.bayou_base.specs.declared.limits.TheConstants.{MAX_OPS as MOST_OPS, MAX_PLACES as MOST_PLACES};
ghost use Rattle.bayou_connect.specs.declared.fault.ConnectFault.TheVariants.{Memory};
ghost use Rattle.bayou_connect.specs.Importing.{AsksToPut, IsBegunAt, Puts, TakesWrites, put_of, stopped_as};

use crate::connecting::greeter_of;
use crate::desk::OWN;
use crate::fault::ConnectFault;
use crate::plan::{NONE, ServerPlace};
use crate::putting_told::PutProgress;
use crate::reach::{Access, Greeter, Purpose};
use bayou_base::limits::ROUND_MILLISECONDS;
use bayou_base::{Accepted, Key, MAX_OPS, MAX_WRITES, Refusal, Value, Vector};
use bayou_client::{Asker, LinkFault};
use bayou_greeting::StoreKey;
use bayou_lang::{Op, RestingProgram, Term};
use bayou_net::Sockets;
use bayou_session::{Past, Session};
use std::alloc::{AllocError, Global};
use std::io::Write;
use std::random::RandomSource;
use std::sync::Wait;
use std::thread;
use std::time::{Clock, Duration};

/// Where rows are put, and under which run.
#[derive(Clone, Copy, Debug)]
pub struct Target {
    pub place: ServerPlace,
    /// How often a server that is away, or whose reply was lost, is asked once more, each time after a rest.
    pub rounds: u64,
    /// How long it has for its connection and its whole reply.
    pub timeout_seconds: u32,
    pub run: u32,
    pub ghost runs: { 0 < run },
}

/// Why not all rows were put.
#[derive(Clone, Copy, Debug, PartialEq, Eq)]
pub enum NotPut {
    Away,
    /// No reply came, or none that is one. The Write may have been done, and acts once all the same.
    Lost,
    Refused(Refusal),
}

/// How far rows are put: so many Writes, and why no more.
#[derive(Clone, Copy, Debug, PartialEq, Eq)]
pub struct Put {
    pub writes: u32,
    pub stopped: Option<NotPut>,
}

// The puts of the rows.
fn puts_of(alloc: Global, rows: &[(Key, Value)]) -> Result<Vec<Op>, AllocError>
    ensures { IfOk result (λ puts. puts.items ≡ map put_of rows.now) }
{
    let mut puts = Vec::with_capacity(alloc, rows.len())?;
    for (key, value) in rows {
        puts.push_reserved(Op::Put(key.copy(), Term::Lit(value.copy())));
    }
    Ok(puts)
}

// The program that puts the rows, whatever the database has.
fn program_of(alloc: Global, rows: &[(Key, Value)]) -> Result<RestingProgram, AllocError>
    requires { length rows.now ≤ MOST_OPS }
    ensures { IfOk result (λ program. Puts rows.now program) }
{
    Ok(RestingProgram::of_update(puts_of(alloc, rows)?))
}

// The session that puts rows, after so many Writes: it asks for nothing.
fn asker_at(run: u32, writes: u32) -> Asker
    requires { 0 < run }
    ensures { IsBegunAt run writes result }
{
    let past = Past {
        run,
        begun: writes,
        asked: None,
        reads: Vector::zero(),
        writes: Vector::zero(),
    };
    Asker::new(Session::resume(OWN, NONE, past), None)
}

// Why a Write that got this answer wasn't accepted, if it wasn't, unless memory ran out here.
fn stop_of(told: Result<Accepted, LinkFault>) -> Result<Option<NotPut>, ConnectFault>
    ensures { result ≡ stopped_as told }
{
    match told {
        Ok(_) => Ok(None),
        Err(LinkFault::OutOfMemory) => Err(ConnectFault::Memory),
        Err(LinkFault::Lost | LinkFault::BadFrame) => Ok(Some(NotPut::Lost)),
        Err(LinkFault::Refused(refusal)) => Ok(Some(NotPut::Refused(refusal))),
    }
}

/// Rows that are put, as far as that came.
#[derive(Drop)]
struct Putting<'a, T> {
    rt: &'a T,
    alloc: Global,
    target: Target,
    access: Access,
    greeter: Greeter,
}

impl<'a, T: Sockets + Wait + Clock> Putting<'a, T> {
    // The session that asks the server for the Write after so many, which puts these rows.
    fn asker_of(&self, rows: &[(Key, Value)], writes: u32) -> Result<Asker, AllocError>
        requires few { length rows.now ≤ MOST_OPS }
        requires left { writes < MOST_PLACES }
        ensures { IfOk result (AsksToPut self.now.target.run self.now.target.place.id rows.now writes) }
    {
        let program = program_of(self.alloc, rows)?;
        let mut asker = asker_at(self.target.run, writes);
        asker.ask(self.target.place.id, program);
        Ok(asker)
    }

    // Has the server do the Write after so many, which puts these rows, once: why it wasn't accepted, if it wasn't.
    fn put_once(
        &mut self,
        rows: &[(Key, Value)],
        writes: u32,
    ) -> Result<Option<NotPut>, ConnectFault>
        requires few { length rows.now ≤ MOST_OPS }
        requires left { writes < MOST_PLACES }
    {
        let mut asker = self.asker_of(rows, writes)?;
        let (rt, time) = (self.rt, self.target.timeout_seconds);
        let Some(mut link) = self
            .access
            .link(rt, &mut self.greeter, time, Purpose::Requests)
        else {
            return Ok(Some(NotPut::Away));
        };
        let heard = asker.send(self.alloc, &mut link);
        self.access.settle(rt, &link);
        stop_of(heard.told)
    }

    // The same, and again, each time after a rest, where it isn't known whether it was accepted, or it wasn't sent.
    fn put(&mut self, rows: &[(Key, Value)], writes: u32) -> Result<Option<NotPut>, ConnectFault>
        requires few { length rows.now ≤ MOST_OPS }
        requires left { writes < MOST_PLACES }
    {
        let mut stopped = self.put_once(rows, writes)?;
        for _ in 0..self.target.rounds {
            if !matches!(stopped, Some(NotPut::Away | NotPut::Lost)) {
                return Ok(stopped);
            }
            thread::sleep(self.rt, Duration::from_millis(ROUND_MILLISECONDS));
            stopped = self.put_once(rows, writes)?;
        }
        Ok(stopped)
    }

    // Puts the rows, as many a Write as it may have, one Write after another, and tells how far it is.
    fn put_all<E: Write>(
        &mut self,
        rows: &[(Key, Value)],
        progress: &mut PutProgress,
        errors: &mut E,
    ) -> Result<Put, ConnectFault>
        ensures { IfOk result (λ put. put.stopped ≡ None → TakesWrites (length rows.now) put.writes) }
    {
        let mut writes: u32 = 0;
        let mut rest = rows;
        while !rest.is_empty() {
            if writes >= MAX_WRITES {
                let stopped = Some(NotPut::Refused(Refusal::LogFull));
                return Ok(Put { writes, stopped });
            }
            let (first, behind) = rest.split_at(MAX_OPS.min(rest.len()));
            let stopped = self.put(first, writes)?;
            if stopped.is_some() {
                return Ok(Put { writes, stopped });
            }
            writes += 1;
            rest = behind;
            progress.tell(self.rt, self.alloc, errors, rows.len() - rest.len())?;
        }
        Ok(Put {
            writes,
            stopped: None,
        })
    }

    // Reports, as far as it can, who answered in place of the server, where it didn't yet.
    fn tell_stranger<E: Write>(&mut self, errors: &mut E) -> Result<(), ConnectFault>
        ensures same { self.new.target ≡ self.old.target }
        ensures fault { IfErr result (λ fault. fault ≡ Memory) }
    {
        let (id, address) = (self.target.place.id.index, self.target.place.address);
        if let Some(stranger) = self.access.news() {
            let line = format!(in self.alloc; "bayou: server {id} at {address} {stranger}\n")?;
            let _ = errors.write_all(line.as_bytes());
        }
        Ok(())
    }
}

/// Puts the rows, as many a Write as it may have, one Write after another: how far that came. A Write is asked under a name that follows from the run and from
/// how many are before it, so that one that was accepted before, under the same run and of the same rows, acts once. A terminal shows meanwhile how
/// far it is.
pub fn put_rows<E, T>(
    rt: &T,
    alloc: Global,
    target: Target,
    key: Option<StoreKey>,
    rows: &[(Key, Value)],
    is_terminal: bool,
    errors: &mut E,
) -> Result<Put, ConnectFault>
where
    E: Write,
    T: Sockets + Wait + Clock + RandomSource,
    // Where nothing stopped it, there are as many Writes as can put them.
    ensures { IfOk result (λ put. put.stopped ≡ None → TakesWrites (length rows.now) put.writes) }
{
    let mut putting = Putting {
        rt,
        alloc,
        target,
        access: Access::new(target.place),
        greeter: greeter_of(rt, alloc, key)?,
    };
    let mut progress = PutProgress::new(rt, is_terminal, rows.len());
    let put = putting.put_all(rows, &mut progress, errors);
    progress.clear(errors);
    putting.tell_stranger(errors)?;
    put
}
