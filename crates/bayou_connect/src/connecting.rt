//! The lines of an input, done as they come.
ghost use Rattle.std.specs.Prelude.{◌≡◌, ◌*◌, ◌<◌, ◌≤◌, Bool, false, IfErr, IfOk, IfSome, IsSomeAnd, MatchOption, None, length, option_copied, option_map, replicate, true, vec_len};
ghost use Rattle.bayou_base.specs.declared.limits.TheConstants.{SERVERS as SERVERS_NUMBER, SESSIONS as NUMBER};
ghost use Rattle.bayou_connect.specs.Desks.{IsSameDesk};
ghost use Rattle.bayou_connect.specs.Faults.{IsBookFault, IsStateFault};
ghost use Rattle.bayou_connect.specs.declared.fault.ConnectFault.TheVariants.{Memory};
ghost use Rattle.bayou_connect.specs.Open.{IsDeskOf};
ghost use Rattle.bayou_connect.specs.Plans.{AsksBoth, Differ};
ghost use Rattle.bayou_connect.specs.Remembered.{IsFoundIn};
ghost use Rattle.bayou_connect.specs.Sessions.{IsOpenedFrom, kept_of};
ghost use Rattle.bayou_connect.specs.Taking.{DoesNext, ended_as};
ghost use Rattle.bayou_connect.specs.Reader.{left_in};
ghost use Rattle.bayou_streams.specs.Account.{account};

use crate::audit_file::AuditWriter;
use crate::desk::{OWN, PersonDesk, numbered};
use crate::doing::{LineBecame, Wrong, do_line};
use crate::fault::ConnectFault;
use crate::finals::Telling;
use crate::lines::{InputLines, NextLine};
use crate::plan::{SessionPlan, asks_of_both, asks_text};
use crate::reach::{DRAWN_BYTES, Greeter};
use crate::remembering::{Remembered, StateFile, remember};
use crate::round::ROUNDS_PER_SECOND;
use crate::store::Store;
use crate::views_file::ViewsFile;
use bayou_base::{Asks, SESSIONS, SessionId};
use bayou_client::Asker;
use bayou_greeting::StoreKey;
use bayou_journal::DamagedEntry;
use bayou_key_file::{keep_label, look_for_label};
use bayou_net::Sockets;
use bayou_remember::nothing_kept;
use bayou_script::ScriptFault;
use bayou_streams::Output;
use std::alloc::Global;
use std::fs::{File, Files};
use std::io::{Read, Write};
use std::random::RandomSource;
use std::sync::Wait;
use std::time::Clock;

/// What is reported where a Write was refused since a log is full.
const FULL: &str =
    "bayou: the log is full: start its server with a greater --limit, or go on at a new store, which `bayou renew` makes (docs/SERVE.md)\n";

/// Where lines come from.
#[derive(Drop)]
pub struct Input<R> {
    pub reader: R,
    /// Whether a person types them: then a line that can't be done doesn't end it.
    pub is_terminal: bool,
}

/// The names of the files that are kept.
#[derive(Clone, Copy, Debug)]
pub struct Names<'a> {
    /// What sessions read and wrote.
    pub state: Option<&'a str>,
    /// What was served, as an audit file.
    pub book: Option<&'a str>,
}

/// How all lines ended.
#[derive(Clone, Copy, Debug, PartialEq, Eq)]
pub enum LinesEnded {
    /// Each operation was served.
    Served,
    /// Some wasn't.
    Unserved,
    /// A line couldn't be done.
    Refused,
}

// Reports what is wrong with a line, as far as it can.
pub(crate) fn tell_wrong<E: Write>(
    alloc: Global,
    errors: &mut E,
    number: u64,
    wrong: Wrong,
) -> Result<(), ConnectFault>
    ensures { IfErr result (λ fault. fault ≡ Memory) }
{
    let line = format!(in alloc; "bayou: line {number}: {wrong}\n")?;
    // Where it can't be reported nothing else is to be done.
    let _ = errors.write_all(line.as_bytes());
    Ok(())
}

// Does the next line, and tells what became of it. After the end of the input there is none.
fn do_next<I: Read, W: Write, T: Files<File = File> + Sockets + Wait + Clock>(
    rt: &T,
    desk: &mut PersonDesk,
    lines: &mut InputLines<I>,
    output: &mut Output<W>,
) -> Result<LineBecame, ConnectFault>
    ensures { IfOk result (DoesNext (left_in I.remaining lines.old) (left_in I.remaining lines.new) desk.old desk.new (account W.contents output.old) (account W.contents output.new)) }
{
    match lines.next_line()? {
        NextLine::End => Ok(LineBecame::Ended),
        NextLine::TooLong => Ok(LineBecame::Wrong(Wrong::Script(ScriptFault::BadShape))),
        NextLine::Line(line) => do_line(rt, desk, output, &line),
    }
}

// Asks for the next line, as far as it can; the prompt names the server that is asked first.
fn prompt<E: Write>(desk: &PersonDesk, errors: &mut E) -> Result<(), ConnectFault>
    ensures { IfErr result (λ fault. fault ≡ Memory) }
{
    let Some(server) = desk.store.server_at(desk.first) else {
        return Ok(());
    };
    let index = server.index;
    let line = format!(in desk.alloc; "server {index}> ")?;
    let _ = errors.write_all(line.as_bytes());
    let _ = errors.flush();
    Ok(())
}

// Reports, as far as it can, who answered in place of a server, where it didn't yet.
pub(crate) fn tell_strangers<E: Write>(
    desk: &mut PersonDesk,
    errors: &mut E,
) -> Result<(), ConnectFault>
    ensures same { IsSameDesk desk.old desk.new }
    ensures fault { IfErr result (λ fault. fault ≡ Memory) }
{
    for at in 0..desk.store.len() {
        let alloc = desk.alloc;
        if let Some((place, stranger)) = desk.store.news_at(at) {
            let (id, address) = (place.id.index, place.address);
            let line = format!(in alloc; "bayou: server {id} at {address} {stranger}\n")?;
            let _ = errors.write_all(line.as_bytes());
        }
    }
    Ok(())
}

// Reports, as far as it can, that a Write was refused since a log is full, where it didn't yet.
pub(crate) fn tell_full<E: Write>(desk: &mut PersonDesk, errors: &mut E)
    ensures told { desk.new.store.is_full ≡ false }
    ensures same { IsSameDesk desk.old desk.new }
{
    if desk.store.take_full() {
        let _ = errors.write_all(FULL.as_bytes());
    }
}

// Does the lines that the reader has left, as they come. Each that can't be done is reported; it ends the input, unless a person types it.
fn do_lines<I, W, E, T>(
    rt: &T,
    desk: &mut PersonDesk,
    input: Input<I>,
    output: &mut Output<W>,
    errors: &mut E,
) -> Result<LinesEnded, ConnectFault>
where
    I: Read + Drop,
    W: Write,
    E: Write,
    T: Files<File = File> + Sockets + Wait + Clock,
    ensures { IfOk result (λ ended. (is_wrong : Bool) × (ended ≡ ended_as is_wrong desk.new.is_served)) }
{
    let Input {
        reader,
        is_terminal,
    } = input;
    let mut lines = InputLines::new(desk.alloc, reader);
    let mut is_wrong = false;
    desk.tell_finals(rt, output, Telling::News)?;
    for number in 1..u64::MAX {
        if is_terminal {
            desk.tell_finals(rt, output, Telling::News)?;
            prompt(desk, errors)?;
        }
        let became = do_next(rt, desk, &mut lines, output)?;
        tell_strangers(desk, errors)?;
        tell_full(desk, errors);
        match became {
            LineBecame::Done => {}
            LineBecame::Quit => break,
            LineBecame::Ended => {
                if is_terminal {
                    // What is printed next stands on a line of its own.
                    let _ = errors.write_all(b"\n");
                }
                break;
            }
            LineBecame::Wrong(wrong) => {
                tell_wrong(desk.alloc, errors, number, wrong)?;
                is_wrong = true;
                if !is_terminal {
                    break;
                }
            }
        }
    }
    desk.store.keep_views(rt)?;
    Ok(ended_by(is_wrong, desk.is_served))
}

// How all lines ended, by whether one of them couldn't be done, and whether each operation was served.
pub(crate) fn ended_by(is_wrong: bool, is_served: bool) -> LinesEnded
    ensures { result ≡ ended_as is_wrong is_served }
{
    match (is_wrong, is_served) {
        (true, _) => LinesEnded::Refused,
        (false, true) => LinesEnded::Served,
        (false, false) => LinesEnded::Unserved,
    }
}

// How this program greets servers.
pub(crate) fn greeter_of<T: RandomSource>(
    rt: &T,
    alloc: Global,
    key: Option<StoreKey>,
) -> Result<Greeter, ConnectFault>
    ensures { IfOk result (λ greeter. greeter.key ≡ key) }
{
    let mut drawn = [0; DRAWN_BYTES];
    if rt.fill_bytes(&mut drawn).is_err() {
        return Err(ConnectFault::Random);
    }
    Ok(Greeter {
        alloc,
        servers: None,
        key,
        drawn,
        greetings: 0,
    })
}

// A run that nobody else has, as far as chance goes.
pub(crate) fn drawn_run<T: RandomSource>(rt: &T) -> Result<u32, ConnectFault>
    ensures { IfOk result (λ run. 0 < run) }
{
    let mut bytes = [0; 4];
    if rt.fill_bytes(&mut bytes).is_err() {
        return Err(ConnectFault::Random);
    }
    Ok(u32::from_be_bytes(bytes).max(1))
}

// The number that session 0 has in tags and in a book: its own where it is kept, else a drawn one, so that another program is less likely to have
// it in the same run.
pub(crate) fn first_number<T: RandomSource>(
    rt: &T,
    is_kept: bool,
) -> Result<SessionId, ConnectFault>
    ensures { is_kept ≡ true → IfOk result (λ first. first.index ≡ 0) }
{
    if is_kept {
        return Ok(OWN);
    }
    let mut bytes = [0; 1];
    if rt.fill_bytes(&mut bytes).is_err() {
        return Err(ConnectFault::Random);
    }
    Ok(SessionId {
        index: bytes[0] % SESSIONS as u8,
    })
}

// What is kept of each session, by its number, and the file that keeps it, if one does.
#[derive(Drop)]
pub(crate) struct Found {
    pub(crate) state: Option<StateFile>,
    pub(crate) views: Option<ViewsFile>,
    pub(crate) sessions: Vec<Option<Asker>>,
    ghost one_each: { vec_len sessions ≡ NUMBER },
}

// Reports, as far as it can, that the last entry of the state file was dropped.
fn tell_entry<E: Write>(
    alloc: Global,
    errors: &mut E,
    path: &str,
    entry: DamagedEntry,
) -> Result<(), ConnectFault>
    ensures { IfErr result (λ fault. fault ≡ Memory) }
{
    let line = format!(in alloc; "bayou: {path}: {entry}\n")?;
    let _ = errors.write_all(line.as_bytes());
    Ok(())
}

// What the file of this name keeps of sessions, at the store of this key or at an open one; nothing, where there is no name. What is kept of another store
// isn't touched. A last entry that was dropped is reported.
pub(crate) fn found_in<E: Write, T: Files<File = File>>(
    rt: &T,
    alloc: Global,
    name: Option<&str>,
    key: &Option<StoreKey>,
    run: u32,
    errors: &mut E,
) -> Result<Found, ConnectFault>
    requires { 0 < run }
    ensures found { IfOk result (λ found. IsFoundIn run (option_copied name.entry) found.state found.views found.sessions.items) }
    ensures fault { IfErr result IsStateFault }
{
    let Some(path) = name else {
        return Ok(Found {
            state: None,
            views: None,
            sessions: nothing_kept(alloc)?,
        });
    };
    let label = format!(in alloc; "{path}.store")?;
    let _ = look_for_label(rt, alloc, label.as_str(), key)?;
    let Remembered { memory, all, entry } = remember(rt, alloc, path, run)?;
    // Nobody else has the file by now.
    keep_label(rt, alloc, label.as_str(), key)?;
    if let Some(entry) = entry {
        tell_entry(alloc, errors, path, entry)?;
    }
    let views = Some(ViewsFile::open(rt, alloc, path)?);
    let path = path.to_string(alloc)?;
    Ok(Found {
        state: Some(StateFile::new(memory, path, run)),
        views,
        sessions: all,
    })
}

// The book, where it has a name.
fn book_in<T: Files<File = File>>(
    rt: &T,
    alloc: Global,
    name: Option<&str>,
    servers: u8,
) -> Result<Option<AuditWriter>, ConnectFault>
    requires { (0 < servers) × (servers ≤ SERVERS_NUMBER) }
    ensures book { IfOk result (λ book. MatchOption (option_copied name.entry) (book ≡ None) (λ path. IsSomeAnd book (λ file. file.count ≡ servers))) }
    ensures fault { IfErr result IsBookFault }
{
    match name {
        None => Ok(None),
        Some(path) => Ok(Some(AuditWriter::open(rt, alloc, path, servers)?)),
    }
}

// What the session asked for when it was kept, if it was.
fn asks_kept(sessions: &[Option<Asker>], who: SessionId) -> Option<Asks>
    requires { length sessions.now ≡ NUMBER }
    ensures { result ≡ option_map (λ kept. kept.session.asks) (kept_of sessions.now who) }
{
    match &sessions[usize::from(who.index)] {
        None => None,
        Some(kept) => Some(kept.session().asks()),
    }
}

// What the session asks for that the words speak of: what they say and what it asked for when it was kept, or nothing. `None` where these are two.
fn own_asks(plan: &SessionPlan, sessions: &[Option<Asker>], who: SessionId) -> Option<Asks>
    requires { length sessions.now ≡ NUMBER }
    ensures { let kept = option_map (λ kept. kept.session.asks) (kept_of sessions.now who) in MatchOption result (Differ plan.now.asks kept) (AsksBoth plan.now.asks kept) }
{
    asks_of_both(plan.asks, asks_kept(sessions, who))
}

// Reports, as far as it can, that the words ask for something else than the session did when it was kept.
fn tell_other_asks<E: Write>(
    alloc: Global,
    errors: &mut E,
    path: &str,
    kept: Asks,
    said: Asks,
) -> Result<(), ConnectFault>
    ensures { IfErr result (λ fault. fault ≡ Memory) }
{
    let (kept, said) = (asks_text(kept), asks_text(said));
    let line = format!(in alloc;
        "bayou: {path}: the session there asks for {kept}, and --session for {said}; nothing was asked\n"
    )?;
    let _ = errors.write_all(line.as_bytes());
    Ok(())
}

// A desk for the plan, at which session 0 has this number in tags and in the book, and the session is open and asks for this.
pub(crate) fn desk_of(
    alloc: Global,
    plan: &SessionPlan,
    store: Store,
    run: u32,
    first_number: SessionId,
    who: SessionId,
    asks: Asks,
) -> PersonDesk
    requires { 0 < run }
    ensures session { IsOpenedFrom first_number who run asks store.sessions.items result.store.sessions.items }
    ensures plan { (result.servers ≡ plan.now.servers) × (result.is_json ≡ plan.now.is_json) × (result.rounds ≡ plan.now.wait_seconds * ROUNDS_PER_SECOND) }
    ensures new { (result.run ≡ run) × (result.first_number ≡ first_number) × (result.first ≡ 0) × (result.is_served ≡ true) × (result.opened ≡ replicate NUMBER false) }
{
    let mut store = store;
    store.open(who, numbered(first_number, who), run, asks);
    PersonDesk {
        alloc,
        store,
        servers: plan.servers,
        is_json: plan.is_json,
        run,
        first_number,
        first: 0,
        rounds: u64::from(plan.wait_seconds) * ROUNDS_PER_SECOND,
        opened: [false; SESSIONS],
        is_served: true,
        is_void: false,
    }
}

// A desk at the servers of the plan, with what is kept of sessions. `None` where the plan asks for something else than the session of short lines did when it
// was kept: that is reported, and nothing is asked.
pub(crate) fn opened_desk<E, T>(
    rt: &T,
    alloc: Global,
    plan: &SessionPlan,
    key: Option<StoreKey>,
    names: Names<'_>,
    errors: &mut E,
) -> Result<Option<PersonDesk>, ConnectFault>
where
    E: Write,
    T: Files<File = File> + RandomSource,
    ensures { IfOk result (λ desk. IfSome desk (IsDeskOf plan.now)) }
{
    let run = drawn_run(rt)?;
    let first_number = first_number(rt, names.state.is_some())?;
    let Found {
        state,
        views,
        sessions,
    } = found_in(rt, alloc, names.state, &key, run, errors)?;
    let Some(asks) = own_asks(plan, &sessions, OWN) else {
        if let (Some(path), Some(said), Some(kept)) = (
            names.state,
            plan.asks,
            asks_kept(&sessions, OWN),
        ) {
            tell_other_asks(alloc, errors, path, kept, said)?;
        }
        return Ok(None);
    };
    let book = book_in(rt, alloc, names.book, plan.servers)?;
    let store = Store::new(
        alloc,
        &plan.places,
        sessions,
        state,
        book,
        views,
        plan.timeout_seconds,
        greeter_of(rt, alloc, key)?,
    )?;
    let desk = desk_of(alloc, plan, store, run, first_number, OWN, asks);
    Ok(Some(desk))
}

/// Does the lines of an input as they come, at the servers of the plan, until it ends, or until a line can't be done that no person types. With the key of a
/// store a server that doesn't prove that it has that key is asked nothing. What
/// sessions read and wrote is kept in a file, and what they were served goes into another, where these have names. Where the plan asks for something else
/// than the session of short lines did when it was kept, that is reported, and nothing is asked.
pub fn connect_plan<I, W, E, T>(
    rt: &T,
    alloc: Global,
    plan: &SessionPlan,
    key: Option<StoreKey>,
    names: Names<'_>,
    input: Input<I>,
    output: &mut Output<W>,
    errors: &mut E,
) -> Result<LinesEnded, ConnectFault>
where
    I: Read + Drop,
    W: Write,
    E: Write,
    T: Files<File = File> + Sockets + Wait + Clock + RandomSource,
{
    let Some(mut desk) = opened_desk(rt, alloc, plan, key, names, errors)? else {
        return Ok(LinesEnded::Refused);
    };
    do_lines(rt, &mut desk, input, output, errors)
}
