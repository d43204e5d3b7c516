//! The rows of one server's database, for who takes them out of the store.
ghost use Rattle.std.specs.Prelude.{◌≡◌, Err, IfOk, false, true};
ghost use Rattle.bayou_connect.specs.Exporting.{IsTakenOf, untaken_as};
ghost use Rattle.bayou_connect.specs.Listing.{AreListed};
ghost use Rattle.bayou_connect.specs.declared.exporting.NotTaken.TheVariants.{Changed as WasChanged};

use crate::connecting::{desk_of, drawn_run, first_number, found_in, greeter_of, tell_strangers};
use crate::desk::{OWN, PersonDesk};
use crate::fault::ConnectFault;
use crate::listing::ListedRows;
use crate::plan::{NONE, SessionPlan};
use crate::store::Store;
use crate::told::ServerTold;
use bayou_base::{Key, Prefix, ServerId, Value, Vector};
use bayou_greeting::StoreKey;
use bayou_net::Sockets;
use std::alloc::Global;
use std::fs::{File, Files};
use std::io::Write;
use std::random::RandomSource;
use std::sync::Wait;
use std::time::Clock;
use thiserror::Error;

/// The rows of a server's database, in the order of keys.
#[derive(Drop)]
pub struct ExportedRows {
    pub server: ServerId,
    /// What the server held that has them.
    pub vector: Vector,
    pub rows: Vec<(Key, Value)>,
}

/// Why no rows were taken.
#[derive(Clone, Copy, Debug, PartialEq, Eq, Error)]
pub enum NotTaken {
    #[error("no server was reached")]
    Away,
    #[error("no server told all rows")]
    Untold,
    /// Again and again they were of more than one database.
    #[error("the server's rows changed while they were told, three times; call it again, or read a journal")]
    Changed,
}

// Why no rows were taken, by this answer.
fn untaken(told: &ServerTold) -> NotTaken
    ensures { result ≡ untaken_as told.now }
{
    match told {
        ServerTold::Away => NotTaken::Away,
        _ => NotTaken::Untold,
    }
}

// The rows that this server told, if they are of one database.
fn taken_of(server: ServerId, rows: ListedRows) -> Result<ExportedRows, NotTaken>
    ensures mixed { rows.is_mixed ≡ true → result ≡ Err WasChanged }
    ensures one { rows.is_mixed ≡ false → IfOk result (IsTakenOf server rows) }
{
    let ListedRows {
        each,
        vector,
        is_mixed,
    } = rows;
    if is_mixed {
        return Err(NotTaken::Changed);
    }
    Ok(ExportedRows {
        server,
        vector,
        rows: each,
    })
}

impl PersonDesk {
    /// The rows whose keys begin so, of one database of one server, in order; or why none are taken.
    fn take<T: Files<File = File> + Sockets + Wait + Clock>(
        &mut self,
        rt: &T,
        prefix: &Prefix,
    ) -> Result<Result<ExportedRows, NotTaken>, ConnectFault>
        ensures { IfOk result (λ told. IfOk told (λ taken. AreListed prefix.now taken.rows.items)) }
    {
        match self.rows_of(rt, OWN, prefix)? {
            Ok(rows) => match self.store.server_at(self.store.asked_last()) {
                Some(server) => Ok(taken_of(server, rows)),
                None => Ok(Err(NotTaken::Away)),
            },
            Err(told) => Ok(Err(untaken(&told))),
        }
    }
}

/// The rows whose keys begin so, as the first of the plan's servers has them that tells them all, of one database; or why none are taken. Nobody's session
/// reads them, and nothing is kept.
pub fn take_plan<E, T>(
    rt: &T,
    alloc: Global,
    plan: &SessionPlan,
    key: Option<StoreKey>,
    prefix: &Prefix,
    errors: &mut E,
) -> Result<Result<ExportedRows, NotTaken>, ConnectFault>
where
    E: Write,
    T: Files<File = File> + Sockets + Wait + Clock + RandomSource,
    ensures { IfOk result (λ told. IfOk told (λ taken. AreListed prefix.now taken.rows.items)) }
{
    let run = drawn_run(rt)?;
    let number = first_number(rt, false)?;
    let found = found_in(rt, alloc, None, &key, run, errors)?;
    let store = Store::new(
        alloc,
        &plan.places,
        found.sessions,
        None,
        None,
        None,
        plan.timeout_seconds,
        greeter_of(rt, alloc, key)?,
    )?;
    let mut desk = desk_of(alloc, plan, store, run, number, OWN, NONE);
    let told = desk.take(rt, prefix)?;
    tell_strangers(&mut desk, errors)?;
    Ok(told)
}
