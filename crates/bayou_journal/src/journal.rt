ghost use Rattle.std.specs.Prelude.{◌≡◌, ◌↔◌, ◌≤◌, ◌++◌, map, IfErr, IfOk, IsErrOf, OnErr, OnOk, true, false};
ghost use Rattle.std.specs.Borrow.{Lends, sem};
ghost use Rattle.bayou_journal.specs.Journal.{with_device};
ghost use Rattle.bayou_journal.specs.contracts.journal.Journal.{the_row};
ghost use Rattle.bayou_device.specs.Device.{Rose};
ghost use Rattle.bayou_journal.specs.Chain;
ghost use Rattle.bayou_journal.specs.Chain.{AreBodies, IsBody, entries_bytes};
ghost use Rattle.bayou_journal.specs.declared.format.TheConstants.{ENTRY_BYTES};
ghost use Rattle.bayou_journal.specs.Opening.{FailsToAdd, HasOpened, HasRefused, KeepsChains, OpensInCalls};

use crate::fault::{AppendFault, NotOpened, OpenFault};
use crate::format::{DIGEST_BYTES, ENTRY_BYTES, link_of, write_entries, write_entry};
use crate::opened::Opened;
use crate::restore::{restore, write_through};
use bayou_base::ServerId;
use bayou_device::{Device, Failed};
use std::alloc::Global;
use std::marker::Model;

/// A server's journal on a device.
#[derive(Drop)]
pub struct Journal<D> {
    device: D,
    server: ServerId,
    last: [u8; DIGEST_BYTES],
    is_down: bool,
    // Room for the longest entry.
    entry: Vec<u8>,
}

impl<D> Model for Journal<D> {
    ghost use Rattle.std.specs.Prelude.{◌≤◌, vec_capacity};
    ghost use Rattle.bayou_journal.specs.Journal.{JournalState};
    ghost use Rattle.bayou_journal.specs.declared.format.TheConstants.{ENTRY_BYTES};

    ghost Value = { JournalState D };

    ghost view = { λ j. record { device = j.device; server = j.server.index; last = j.last; is_down = j.is_down } };

    ghost invariant = { λ j. ENTRY_BYTES ≤ vec_capacity j.entry };
}

impl<D: Device> Journal<D> {
    /// Opens the server's journal that the device has, or begins it where the device has nothing but the front of a header.
    /// A journal of an earlier version is raised to the newest, after a mark. Device calls: the read; the cut, if something
    /// stands after the chain; the append of the header, if it isn't there, or of the mark, if the chain is of an earlier
    /// version; the sync. A refusal hands the device back.
    pub fn open(
        alloc: Global,
        server: ServerId,
        device: D,
    ) -> Result<(Journal<D>, Opened), NotOpened<D>>
        ensures opened { IfOk result (λ opened. HasOpened D.Device server.index device opened.0.device opened.1 opened.0.last) }
        ensures state { IfOk result (λ opened. (opened.0.server ≡ server.index) × (opened.0.is_down ≡ false)) }
        ensures refused { IfErr result (λ refused. HasRefused D.Device server.index device refused.device refused.fault) }
        ensures safe { D.is_modelled → IfOk result (λ opened. KeepsChains (D.kept device) (D.kept opened.0.device)) }
        ensures safe_refused { D.is_modelled → IfErr result (λ refused. KeepsChains (D.kept device) (D.kept refused.device)) }
        ensures calls { IfOk result (λ opened. OpensInCalls D.Device server.index device opened.0.device) }
        ensures calls_refused { IfErr result (λ refused. OpensInCalls D.Device server.index device refused.device) }
        ensures uncut { IfOk result (λ opened. opened.1.dropped ≡ 0 → D.leads_to 3 device opened.0.device) }
    {
        let mut device = device;
        let mut entry = Vec::new(alloc);
        if entry.try_reserve_exact(ENTRY_BYTES).is_err() {
            return Err(NotOpened {
                fault: OpenFault::OutOfMemory,
                device,
            });
        }
        match restore(alloc, server, &mut device, &mut entry) {
            Err(fault) => Err(NotOpened { fault, device }),
            Ok(restored) => {
                let last = restored.last;
                let journal = Journal {
                    device,
                    server,
                    last,
                    is_down: false,
                    entry,
                };
                Ok((journal, restored.opened))
            }
        }
    }

    /// Adds an entry after what the device holds, and syncs it. Device calls: the append, the sync. Where one of them fails
    /// the journal is down. It takes no memory of its own.
    pub fn append(&mut self, body: &[u8]) -> Result<(), AppendFault>
        requires { IsBody body.now }
        ensures down { IsErrOf result AppendFault.Down ↔ (self.old.is_down ≡ true) }
        ensures unchanged { IsErrOf result AppendFault.Down → self.new ≡ self.old }
        ensures added { D.is_modelled → OnOk result (D.content self.new.device ≡ D.content self.old.device ++ Chain.entry self.old.last body.now) }
        ensures synced { OnOk result (D.kept self.new.device ≡ D.content self.new.device) }
        ensures ends { OnOk result (self.new ≡ record self.old { device = self.new.device; last = Chain.link self.old.last body.now }) }
        ensures counts { OnOk result (D.failures self.new.device ≡ D.failures self.old.device) }
        ensures fault { IsErrOf result AppendFault.Device → self.new ≡ record self.old { device = self.new.device; is_down = true } }
        ensures rose { IsErrOf result AppendFault.Device → Rose (D.failures self.old.device) (D.failures self.new.device) }
        ensures left { D.is_modelled → IsErrOf result AppendFault.Device → FailsToAdd D.may_leave (Chain.entry self.old.last body.now) (D.content self.old.device) (D.content self.new.device) }
        ensures safe { D.is_modelled → KeepsChains (D.kept self.old.device) (D.kept self.new.device) }
        ensures calls { D.leads_to 2 self.old.device self.new.device }
    {
        if self.is_down {
            return Err(AppendFault::Down);
        }
        let digest = link_of(&self.last, body);
        write_entry(&mut self.entry, body, &digest);
        match write_through(&mut self.device, &self.entry) {
            Ok(()) => {
                self.last = digest;
                Ok(())
            }
            Err(Failed) => {
                self.is_down = true;
                Err(AppendFault::Device)
            }
        }
    }

    /// Adds the entries of the bodies after what the device holds, in their order, as one piece, and syncs them together. They have no
    /// more bytes than the longest entry may have. Device calls: the append, the sync. Where one of them fails the journal is down, and
    /// an opening finds a front of the bodies: of a front of the piece no more than one entry is torn. It takes no memory of its own.
    pub fn append_all(&mut self, bodies: &[Vec<u8>]) -> Result<(), AppendFault>
        requires bodies { AreBodies (map (λ body. body.items) bodies.now) }
        requires within { entries_bytes (map (λ body. body.items) bodies.now) ≤ ENTRY_BYTES }
        ensures down { IsErrOf result AppendFault.Down ↔ (self.old.is_down ≡ true) }
        ensures unchanged { IsErrOf result AppendFault.Down → self.new ≡ self.old }
        ensures added { D.is_modelled → OnOk result (D.content self.new.device ≡ D.content self.old.device ++ Chain.entries self.old.last (map (λ body. body.items) bodies.now)) }
        ensures synced { OnOk result (D.kept self.new.device ≡ D.content self.new.device) }
        ensures ends { OnOk result (self.new ≡ record self.old { device = self.new.device; last = Chain.last_link self.old.last (map (λ body. body.items) bodies.now) }) }
        ensures counts { OnOk result (D.failures self.new.device ≡ D.failures self.old.device) }
        ensures fault { IsErrOf result AppendFault.Device → self.new ≡ record self.old { device = self.new.device; is_down = true } }
        ensures rose { IsErrOf result AppendFault.Device → Rose (D.failures self.old.device) (D.failures self.new.device) }
        ensures left { D.is_modelled → IsErrOf result AppendFault.Device → FailsToAdd D.may_leave (Chain.entries self.old.last (map (λ body. body.items) bodies.now)) (D.content self.old.device) (D.content self.new.device) }
        ensures safe { D.is_modelled → KeepsChains (D.kept self.old.device) (D.kept self.new.device) }
        ensures calls { D.leads_to 2 self.old.device self.new.device }
    {
        if self.is_down {
            return Err(AppendFault::Down);
        }
        let last = write_entries(&mut self.entry, &self.last, bodies);
        match write_through(&mut self.device, &self.entry) {
            Ok(()) => {
                self.last = last;
                Ok(())
            }
            Err(Failed) => {
                self.is_down = true;
                Err(AppendFault::Device)
            }
        }
    }

    /// Opens it again, with the same device calls, also where it isn't down. After a refusal it is down, and a cut that was
    /// made stays made.
    pub fn reopen(&mut self, alloc: Global) -> Result<Opened, OpenFault>
        ensures opened { IfOk result (λ opened. HasOpened D.Device self.old.server self.old.device self.new.device opened self.new.last) }
        ensures up { OnOk result (self.new ≡ record self.old { device = self.new.device; last = self.new.last; is_down = false }) }
        ensures refused { IfErr result (λ fault. HasRefused D.Device self.old.server self.old.device self.new.device fault) }
        ensures down { OnErr result (self.new ≡ record self.old { device = self.new.device; is_down = true }) }
        ensures safe { D.is_modelled → KeepsChains (D.kept self.old.device) (D.kept self.new.device) }
        ensures calls { OpensInCalls D.Device self.old.server self.old.device self.new.device }
        ensures uncut { IfOk result (λ opened. opened.dropped ≡ 0 → D.leads_to 3 self.old.device self.new.device) }
    {
        match restore(alloc, self.server, &mut self.device, &mut self.entry) {
            Err(fault) => {
                self.is_down = true;
                Err(fault)
            }
            Ok(restored) => {
                let last = restored.last;
                self.last = last;
                self.is_down = false;
                Ok(restored.opened)
            }
        }
    }

    /// Whether a device call has failed since it was opened last.
    pub fn is_down(&self) -> bool
        ensures { result ≡ self.now.is_down }
    {
        self.is_down
    }

    /// Its device.
    pub fn close(self) -> D
        ensures { result ≡ self.device }
    {
        let Journal {
            device,
            server: _,
            last: _,
            is_down: _,
            entry: _,
        } = self;
        device
    }

    /// Its device, to look at.
    pub fn see_device(&self) -> &D
        ensures { result.now ≡ self.now.device }
    {
        &self.device
    }

    /// Its device, for what only the device can do, as to set a fuse in a test.
    pub fn device(&mut self) -> &mut D
        ensures value { result.now ≡ self.old.device }
        ensures* writes_back { sem 𝓛 (Lends (the_row D.row) D.row self.entry result (with_device self.old)) }
    {
        &mut self.device
    }
}
