//! What is kept, on a device.
ghost use Rattle.bayou_client.specs.Operating.{Asking};
ghost use Rattle.std.specs.Prelude.{◌≡◌, ◌<◌, ◌++◌, ◌∷◌, [], IfErr, IfOk, List, OnOk};
ghost use Rattle.bayou_journal.specs.Opening.{KeepsChains};
ghost use Rattle.bayou_remember.specs.Memory.{AreLast, EndsWith, HasAll, HasNotRemembered, HasRemembered, Keeps, Remembers};
ghost use Rattle.bayou_remember.specs.Inner.Reading.{CantTell};

use crate::decode::decode_kept;
use crate::encode::encode_kept;
use bayou_base::limits::MAX_BODY_BYTES;
use bayou_base::{SESSIONS, ServerId};
use bayou_client::Asker;
use bayou_device::Device;
use bayou_journal::laws::an_append_leaves_an_honest_device;
use bayou_journal::{AppendFault, Journal, OpenFault, Opened};
use std::alloc::{AllocError, Global};
use std::marker::Model;

/// Whose the journal of what is kept is, as its header says: the first server's, since sessions are no server's.
pub const KEEPER: u8 = 0;

/// Why nothing is remembered.
#[derive(Clone, Copy, Debug, PartialEq, Eq)]
pub enum RememberFault {
    /// The device holds no such journal, its calls failed, or there was no memory.
    Journal(OpenFault),
    /// The body of this entry, from 0 on, keeps nothing.
    NotKept(usize),
    /// There was no memory.
    OutOfMemory,
}

/// A refusal, with the device.
#[derive(Drop)]
pub struct NotRemembered<D> {
    pub fault: RememberFault,
    pub device: D,
}

/// Why nothing was kept.
#[derive(Clone, Copy, Debug, PartialEq, Eq)]
pub enum KeepFault {
    /// A call of the device failed, now or before.
    Device,
    /// Its spelling is longer than a journal's entry may be.
    TooLong,
    /// There was no memory.
    OutOfMemory,
}

impl From<AllocError> for KeepFault {
    ghost use Rattle.std.specs.Prelude.{◌≡◌};
    ghost use Rattle.bayou_remember.specs.declared.memory.KeepFault.TheVariants.{OutOfMemory};

    ghost from_gives = { λ _ fault. fault ≡ OutOfMemory };

    fn from(_refused: AllocError) -> KeepFault {
        KeepFault::OutOfMemory
    }
}

/// What is kept of sessions, on a device.
#[derive(Drop)]
pub struct Memory<D> {
    journal: Journal<D>,
    entries: u64,
}

impl<D> Model for Memory<D> {
    ghost use Rattle.std.specs.Prelude.{◌≡◌};
    ghost use Rattle.bayou_remember.specs.Memory.{MemoryState};
    ghost use Rattle.bayou_remember.specs.declared.memory.TheConstants.{KEEPER};

    ghost Value = { MemoryState D };

    ghost view = { λ m. record { device = m.journal.device; last = m.journal.last; is_down = m.journal.is_down; entries = m.entries } };

    ghost invariant = { λ m. m.journal.server ≡ KEEPER };
}

/// Nothing of each session.
pub fn nothing_kept(alloc: Global) -> Result<Vec<Option<Asker>>, AllocError>
    ensures { IfOk result (λ all. AreLast [] all.items) }
{
    let mut all = Vec::with_capacity(alloc, SESSIONS)?;
    for _ in 0..SESSIONS {
        all.push(None)?;
    }
    Ok(all)
}

// What the bodies keep of each session at last.
fn kept_in(alloc: Global, run: u32, opened: &Opened) -> Result<Vec<Option<Asker>>, RememberFault>
    requires { 0 < run }
    ensures told { IfOk result (λ all. Remembers run opened.now.bodies all.items) }
    ensures refused { IfErr result (CantTell opened.now.bodies) }
{
    let Ok(mut all) = nothing_kept(alloc) else {
        return Err(RememberFault::OutOfMemory);
    };
    for at in 0..opened.len() {
        match decode_kept(alloc, run, opened.body(at)) {
            Ok(Some(kept)) => {
                let session = kept.session().id();
                all[usize::from(session.index)] = Some(kept);
            }
            Ok(None) => return Err(RememberFault::NotKept(at)),
            Err(_) => return Err(RememberFault::OutOfMemory),
        }
    }
    Ok(all)
}

impl<D: Device + Drop> Memory<D> {
    /// What the device keeps, and what that is of each session, by its number; those that have nothing to ask again go on in this run. An
    /// empty device keeps nothing yet. A torn end is cut. A refusal hands the device back.
    pub fn open(
        alloc: Global,
        device: D,
        run: u32,
    ) -> Result<(Memory<D>, Vec<Option<Asker>>), NotRemembered<D>>
        requires { 0 < run }
        ensures opened { IfOk result (λ opened. HasRemembered D.Device run device opened.0 opened.1.items) }
        ensures refused { IfErr result (λ refused. HasNotRemembered D.Device device refused.device refused.fault) }
        ensures safe { D.is_modelled → IfOk result (λ opened. KeepsChains (D.kept device) (D.kept opened.0.device)) }
        ensures safe_refused { D.is_modelled → IfErr result (λ refused. KeepsChains (D.kept device) (D.kept refused.device)) }
    {
        match Journal::open(alloc, ServerId { index: KEEPER }, device) {
            Err(refused) => Err(NotRemembered {
                fault: RememberFault::Journal(refused.fault),
                device: refused.device,
            }),
            Ok((journal, opened)) => match kept_in(alloc, run, &opened) {
                Err(fault) => Err(NotRemembered {
                    fault,
                    device: journal.close(),
                }),
                Ok(kept) => Ok((
                    Memory {
                        journal,
                        entries: opened.len() as u64,
                    },
                    kept,
                )),
            },
        }
    }

    /// Its device.
    pub fn close(self) -> D
        ensures { result ≡ self.device }
    {
        self.journal.close()
    }

    /// Its device, to look at.
    pub fn see_device(&self) -> &D
        ensures { result.now ≡ self.now.device }
    {
        self.journal.see_device()
    }

    /// How many entries there are, of all sessions, of which the last of each counts.
    pub fn entries(&self) -> u64
        ensures { result ≡ self.now.entries }
    {
        self.entries
    }

    /// Keeps it, after all else and synced. After a call of the device that failed nothing more is kept.
    pub fn keep(&mut self, alloc: Global, kept: &Asker) -> Result<(), KeepFault>
        ensures keeps { Keeps D.Device self.old kept.now result self.new }
        ensures ends { OnOk result (EndsWith self.new kept.now) }
        // A device that had these and nothing else has this one too, last.
        ensures all { D.is_modelled → OnOk result ((all : List Asking) → HasAll D.Device self.old all → HasAll D.Device self.new (all ++ kept.now ∷ [])) }
        ensures safe { D.is_modelled → KeepsChains (D.kept self.old.device) (D.kept self.new.device) }
        ensures calls { D.leads_to 2 self.old.device self.new.device }
    {
        an_append_leaves_an_honest_device::<D>();
        let body = encode_kept(alloc, kept)?;
        if body.is_empty() || body.len() > MAX_BODY_BYTES {
            return Err(KeepFault::TooLong);
        }
        match self.journal.append(&body) {
            Ok(()) => {
                self.entries = self.entries.saturating_add(1);
                Ok(())
            }
            Err(AppendFault::Down | AppendFault::Device) => Err(KeepFault::Device),
        }
    }
}
