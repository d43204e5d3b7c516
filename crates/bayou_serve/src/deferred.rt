//! A device of which nobody hears anything before all of it is synced at once.
ghost use Rattle.std.specs.Prelude.{◌≡◌, ◌++◌, Err, IfOk, IsErrOf, Ok, OnErr, OnOk};
ghost use Rattle.bayou_device.specs.Device.{Rose};

use bayou_device::{Device, Failed, ReadFault};
use std::alloc::Global;

/// A device whose syncs wait until it is given back, and then are one. So nothing is said of what it keeps before; its own clauses say what comes to the
/// device beneath. Nothing is cut of it.
#[derive(Drop)]
pub struct Deferred<D> {
    device: D,
    failures: u64,
}

// What a call came to; a failure is counted.
fn counted(failures: &mut u64, answer: Result<(), Failed>) -> Result<(), Failed>
    ensures same { result ≡ answer }
    ensures counts { OnOk result (failures.new ≡ failures.old) }
    ensures rose { OnErr result (Rose failures.old failures.new) }
{
    if answer.is_err() {
        *failures = failures.saturating_add(1);
    }
    answer
}

impl<D: Device> Deferred<D> {
    /// The device, of which no call has failed yet.
    pub fn new(device: D) -> Self
        ensures { result.device ≡ device }
    {
        Deferred {
            device,
            failures: 0,
        }
    }

    /// The device, which keeps all that it has.
    pub fn synced(self) -> Result<D, Failed>
        ensures { IfOk result (λ device. (D.kept device ≡ D.content self.device) × (D.content device ≡ D.content self.device)) }
    {
        let mut device = self.device;
        device.sync()?;
        Ok(device)
    }
}

impl<D: Device> Device for Deferred<D> {
    ghost use Rattle.std.specs.Prelude.{ℕ, List, [], refl};

    ghost is_modelled = { ⊥ };

    ghost content = { λ _. [] };

    ghost kept = { λ _. [] };

    ghost failures = { λ deferred. deferred.failures };

    ghost may_leave = { λ _ _ _. Unit {0} };

    ghost leads_to = { λ _ _ _. Unit {0} };

    fn read_all(&mut self, alloc: Global) -> Result<Vec<u8>, ReadFault>
        ensures bytes { D.is_modelled → IfOk result (λ bytes. bytes.items ≡ D.content self.old.device) }
        ensures same { OnOk result (D.content self.new.device ≡ D.content self.old.device) }
        ensures counts { OnOk result (self.new.failures ≡ self.old.failures) }
        ensures rose { IsErrOf result ReadFault.Failed → Rose self.old.failures self.new.failures }
        ensures memory_counts { IsErrOf result ReadFault.OutOfMemory → self.new.failures ≡ self.old.failures }
    {
        match self.device.read_all(alloc) {
            Err(ReadFault::Failed) => {
                self.failures = self.failures.saturating_add(1);
                Err(ReadFault::Failed)
            }
            others => others,
        }
    }

    fn append(&mut self, piece: &[u8]) -> Result<(), Failed>
        ensures added { D.is_modelled → OnOk result (D.content self.new.device ≡ D.content self.old.device ++ piece.now) }
        ensures counts { OnOk result (self.new.failures ≡ self.old.failures) }
        ensures rose { OnErr result (Rose self.old.failures self.new.failures) }
    {
        let answer = self.device.append(piece);
        counted(&mut self.failures, answer)
    }

    fn sync(&mut self) -> Result<(), Failed>
        ensures { (result ≡ Ok tt) × (self.new ≡ self.old) }
    {
        Ok(())
    }

    fn cut(&mut self, _len: usize) -> Result<(), Failed>
        ensures refused { OnOk result ⊥ }
        ensures same { self.new.device ≡ self.old.device }
        ensures rose { Rose self.old.failures self.new.failures }
    {
        counted(&mut self.failures, Err(Failed))
    }

    ghost keeps = { λ _. ([], refl) };

    ghost stays = { λ _ _. tt };

    ghost goes_on = { λ _ _ _ _ _ _ _ _ _. tt };
}
