//! One operation of a session at one server.
ghost use Rattle.std.specs.Prelude.{◌≡◌, ◌<◌, IfOk, IsSome, OnOk};
ghost use Rattle.bayou_base.specs.declared.limits.TheConstants.{MAX_PLACES};
ghost use Rattle.bayou_client.specs.Operating.{Asking, begins_read, heard_by, told_accepted, told_seen};
ghost use Rattle.bayou_connect.specs.Keeping.{IsKeptLast, IsReady};
ghost use Rattle.bayou_connect.specs.Operating.{HasDone, IsNoService, TellsFate, TellsRead, TellsRows, TellsWrite, is_read as reads, purpose_of, sent_again, told_fate, told_rows};

use crate::fault::ConnectFault;
use crate::reach::Purpose;
use crate::remembering::StateFile;
use crate::told::ServerTold;
use bayou_base::{Accepted, Entry, Key, Seen, ServerId, Vector, Wid};
use bayou_client::{Asker, Heard, Link, LinkFault};
use bayou_lang::RestingProgram;
use bayou_wire::{Fate, FateAsked, Page, RowsAsked};
use std::alloc::{AllocError, Global};
use std::io::{Read, Write};

/// What is asked of a server.
#[derive(Drop)]
pub enum Requested {
    Read(Key),
    /// Rows, which are read too.
    List(RowsAsked),
    /// What became of this Write, which is read too.
    Became(Wid),
    Write(RestingProgram),
    /// The Write that may be asked again.
    Again,
}

// What is asked of rows, once more.
fn copy_of(asked: &RowsAsked) -> RowsAsked
    ensures { result ≡ asked.now }
{
    let after = match &asked.after {
        Some(key) => Some(key.copy()),
        None => None,
    };
    RowsAsked {
        need: asked.need,
        prefix: asked.prefix.copy(),
        after,
        most: asked.most,
    }
}

impl Requested {
    /// The same once more.
    pub fn copy(&self, alloc: Global) -> Result<Self, AllocError>
        ensures { IfOk result (λ copied. copied ≡ self.now) }
    {
        match self {
            Requested::Read(key) => Ok(Requested::Read(key.copy())),
            Requested::List(asked) => Ok(Requested::List(copy_of(asked))),
            Requested::Became(wid) => Ok(Requested::Became(*wid)),
            Requested::Write(program) => Ok(Requested::Write(program.copy(alloc)?)),
            Requested::Again => Ok(Requested::Again),
        }
    }

    /// Whether it is a read, which changes nothing.
    pub(crate) fn is_read(&self) -> bool
        ensures { result ≡ reads self.now }
    {
        matches!(
            self,
            Requested::Read(_) | Requested::List(_) | Requested::Became(_)
        )
    }

    /// For which connection it is.
    pub(crate) fn purpose(&self) -> Purpose
        ensures { result ≡ purpose_of self.now }
    {
        match self {
            Requested::List(_) | Requested::Became(_) => Purpose::Lookups,
            Requested::Read(_) | Requested::Write(_) | Requested::Again => Purpose::Requests,
        }
    }
}

/// What became of it: what the session heard, and what is entered of it.
#[derive(Drop)]
pub(crate) struct Done {
    pub(crate) told: ServerTold,
    pub(crate) entry: Option<Entry>,
}

// What an operation hears that wasn't served.
fn unserved(fault: LinkFault) -> ServerTold
    ensures { IsNoService result }
{
    match fault {
        LinkFault::Refused(refusal) => ServerTold::Refused(refusal),
        LinkFault::Lost | LinkFault::BadFrame | LinkFault::OutOfMemory => ServerTold::Lost,
    }
}

// What a session hears that has heard this of a read.
fn done_by_read(heard: Heard<Seen>) -> Done
    ensures { (begun : Asking) → TellsRead begun (heard_by told_seen begun heard.told) result.told }
{
    let Heard { told, entry } = heard;
    match told {
        Ok(seen) => Done {
            told: ServerTold::Seen(seen),
            entry,
        },
        Err(fault) => Done {
            told: unserved(fault),
            entry,
        },
    }
}

// What a session hears that has heard this of rows.
fn done_by_rows(heard: Heard<Page>) -> Done
    ensures { (begun : Asking) → TellsRows begun (heard_by told_rows begun heard.told) result.told }
{
    let Heard { told, entry } = heard;
    match told {
        Ok(page) => Done {
            told: ServerTold::Rows(page),
            entry,
        },
        Err(fault) => Done {
            told: unserved(fault),
            entry,
        },
    }
}

// What a session hears that has heard this of what became of a Write.
fn done_by_fate(heard: Heard<Fate>) -> Done
    ensures { (begun : Asking) → TellsFate begun (heard_by told_fate begun heard.told) result.told }
{
    let Heard { told, entry } = heard;
    match told {
        Ok(fate) => Done {
            told: ServerTold::Fate(fate),
            entry,
        },
        Err(fault) => Done {
            told: unserved(fault),
            entry,
        },
    }
}

// What a session hears that has heard this of a Write.
fn done_by_write(heard: Heard<Accepted>) -> Done
    ensures { (begun : Asking) → TellsWrite begun (heard_by told_accepted begun heard.told) result.told }
{
    let Heard { told, entry } = heard;
    match told {
        Ok(accepted) => Done {
            told: ServerTold::Accepted(accepted),
            entry,
        },
        Err(fault) => Done {
            told: unserved(fault),
            entry,
        },
    }
}

// Keeps the session, where a file keeps sessions.
fn keep(alloc: Global, state: &mut Option<StateFile>, asker: &Asker) -> Result<(), ConnectFault>
    ensures { OnOk result (IsKeptLast state.new asker.now) }
{
    match state {
        None => Ok(()),
        Some(file) => file.keep(alloc, asker),
    }
}

// Tells what was done, once the session is kept as it heard.
fn tell(
    alloc: Global,
    state: &mut Option<StateFile>,
    asker: &Asker,
    done: Done,
) -> Result<Done, ConnectFault>
    ensures done { IfOk result (λ told. told ≡ done) }
    ensures kept { OnOk result (IsKeptLast state.new asker.now) }
{
    keep(alloc, state, asker)?;
    Ok(done)
}

// Sends the Write that was begun, which is kept by now.
fn send<R: Read, W: Write>(
    alloc: Global,
    state: &mut Option<StateFile>,
    begun: &mut Asker,
    link: &mut Link<R, W>,
) -> Result<Done, ConnectFault>
    requires { IsReady state.old begun.old }
    ensures told { IfOk result (λ done. TellsWrite begun.old begun.new done.told) }
    ensures kept { OnOk result (IsKeptLast state.new begun.new) }
{
    let done = done_by_write(begun.send(alloc, link));
    tell(alloc, state, begun, done)
}

// Keeps the Write that was begun, and then sends it.
fn write<R: Read, W: Write>(
    alloc: Global,
    state: &mut Option<StateFile>,
    begun: &mut Asker,
    link: &mut Link<R, W>,
) -> Result<Done, ConnectFault>
    requires { IsSome begun.old.asked }
    ensures told { IfOk result (λ done. TellsWrite begun.old begun.new done.told) }
    ensures kept { OnOk result (IsKeptLast state.new begun.new) }
{
    keep(alloc, state, begun)?;
    send(alloc, state, begun, link)
}

// Reads the key at this server, which the link goes to.
fn read<R: Read, W: Write>(
    alloc: Global,
    state: &mut Option<StateFile>,
    asker: &mut Asker,
    link: &mut Link<R, W>,
    server: ServerId,
    key: &Key,
) -> Result<Done, ConnectFault>
    requires { asker.old.session.begun < MAX_PLACES }
    ensures told { IfOk result (λ done. TellsRead (begins_read asker.old) asker.new done.told) }
    ensures kept { OnOk result (IsKeptLast state.new asker.new) }
{
    let done = done_by_read(asker.read(alloc, link, server, key));
    tell(alloc, state, asker, done)
}

// Asks for rows at this server, which the link goes to.
fn list<R: Read, W: Write>(
    alloc: Global,
    state: &mut Option<StateFile>,
    asker: &mut Asker,
    link: &mut Link<R, W>,
    server: ServerId,
    asked: &RowsAsked,
) -> Result<Done, ConnectFault>
    requires { asker.old.session.begun < MAX_PLACES }
    ensures told { IfOk result (λ done. TellsRows (begins_read asker.old) asker.new done.told) }
    ensures kept { OnOk result (IsKeptLast state.new asker.new) }
{
    let done = done_by_rows(asker.list(alloc, link, server, asked));
    tell(alloc, state, asker, done)
}

// Asks what became of the Write at this server, which the link goes to.
fn became<R: Read, W: Write>(
    alloc: Global,
    state: &mut Option<StateFile>,
    asker: &mut Asker,
    link: &mut Link<R, W>,
    server: ServerId,
    wid: Wid,
) -> Result<Done, ConnectFault>
    requires { asker.old.session.begun < MAX_PLACES }
    ensures told { IfOk result (λ done. TellsFate (begins_read asker.old) asker.new done.told) }
    ensures kept { OnOk result (IsKeptLast state.new asker.new) }
{
    let asked = FateAsked {
        need: Vector::zero(),
        wid,
    };
    let done = done_by_fate(asker.became(alloc, link, server, &asked));
    tell(alloc, state, asker, done)
}

// Asks the Write once more that may be asked again, if there is one, over a link that goes to its server.
fn again<R: Read, W: Write>(
    alloc: Global,
    state: &mut Option<StateFile>,
    asker: &mut Asker,
    link: &mut Link<R, W>,
) -> Result<Done, ConnectFault>
    requires { asker.old.session.begun < MAX_PLACES }
    ensures told { IfOk result (λ done. TellsWrite (sent_again asker.old asker.old.asked) asker.new done.told) }
    ensures kept { OnOk result (IsKeptLast state.new asker.new) }
{
    if asker.asked().is_none() {
        let done = Done {
            told: ServerTold::Lost,
            entry: None,
        };
        return tell(alloc, state, asker, done);
    }
    asker.ask_again();
    write(alloc, state, asker, link)
}

/// Has the session do this at this server, which the link goes to. A Write that is sent was kept before, and the session is kept as it heard before
/// anybody hears of it.
pub(crate) fn operate<R: Read, W: Write>(
    alloc: Global,
    state: &mut Option<StateFile>,
    asker: &mut Asker,
    link: &mut Link<R, W>,
    server: ServerId,
    attempt: Requested,
) -> Result<Done, ConnectFault>
    requires { asker.old.session.begun < MAX_PLACES }
    ensures done { IfOk result (λ done. HasDone attempt server asker.old asker.new done.told) }
    ensures kept { OnOk result (IsKeptLast state.new asker.new) }
{
    match attempt {
        Requested::Read(key) => read(alloc, state, asker, link, server, &key),
        Requested::List(asked) => list(alloc, state, asker, link, server, &asked),
        Requested::Became(wid) => became(alloc, state, asker, link, server, wid),
        Requested::Write(program) => {
            asker.ask(server, program);
            write(alloc, state, asker, link)
        }
        Requested::Again => again(alloc, state, asker, link),
    }
}
