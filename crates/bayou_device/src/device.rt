ghost use Rattle.std.specs.Prelude.{◌≡◌, ℕ, ◌+◌, ◌≤◌, List, [], ◌++◌, length, take, IfOk, OnOk, OnErr, IsErrOf};
ghost use Rattle.bayou_device.specs.Device.{BeginsWith, Rose};

use std::alloc::Global;

/// A call of a device failed.
#[derive(Clone, Copy, Debug, PartialEq, Eq)]
pub struct Failed;

/// Why nothing was read.
#[derive(Clone, Copy, Debug, PartialEq, Eq)]
pub enum ReadFault {
    Failed,
    OutOfMemory,
}

/// Where a journal is stored: bytes that are read whole, added at the end, made to last, and cut at the end.
pub trait Device: Drop {
    /// Whether the clauses say what it holds. They do of a device in memory; of a real file they can't.
    ghost is_modelled: { Type 0 };

    /// What a read gives.
    ghost content: { Self → List ℕ };

    /// What was synced and not cut since: it stays whatever fails.
    ghost kept: { Self → List ℕ };

    /// How often a call has failed.
    ghost failures: { Self → ℕ };

    /// What a failed call may leave, where it was to add a piece (none if it is no append) to a content.
    ghost may_leave: { List ℕ → List ℕ → List ℕ → Type 0 };

    /// At most so many calls lead from one state to the other. A device may say more by it, as when it can have failed.
    ghost leads_to: { ℕ → Self → Self → Type 0 };

    /// All the bytes. A want of memory is no failure of the device.
    fn read_all(&mut self, alloc: Global) -> Result<Vec<u8>, ReadFault>
        ensures bytes { is_modelled → IfOk result (λ bytes. bytes.items ≡ content self.old) }
        ensures same { OnOk result (content self.new ≡ content self.old) }
        ensures left { IsErrOf result ReadFault.Failed → may_leave [] (content self.old) (content self.new) }
        ensures memory { IsErrOf result ReadFault.OutOfMemory → content self.new ≡ content self.old }
        ensures kept { kept self.new ≡ kept self.old }
        ensures counts { OnOk result (failures self.new ≡ failures self.old) }
        ensures rose { IsErrOf result ReadFault.Failed → Rose (failures self.old) (failures self.new) }
        ensures memory_counts { IsErrOf result ReadFault.OutOfMemory → failures self.new ≡ failures self.old }
        ensures calls { leads_to 1 self.old self.new };

    /// Adds the piece at the end.
    fn append(&mut self, piece: &[u8]) -> Result<(), Failed>
        ensures added { is_modelled → OnOk result (content self.new ≡ content self.old ++ piece.now) }
        ensures left { OnErr result (may_leave piece.now (content self.old) (content self.new)) }
        ensures kept { kept self.new ≡ kept self.old }
        ensures counts { OnOk result (failures self.new ≡ failures self.old) }
        ensures rose { OnErr result (Rose (failures self.old) (failures self.new)) }
        ensures calls { leads_to 1 self.old self.new };

    /// Makes all that a read gives last.
    fn sync(&mut self) -> Result<(), Failed>
        ensures same { OnOk result (content self.new ≡ content self.old) }
        ensures synced { OnOk result (kept self.new ≡ content self.old) }
        ensures left { OnErr result (may_leave [] (content self.old) (content self.new)) }
        ensures kept { OnErr result (kept self.new ≡ kept self.old) }
        ensures counts { OnOk result (failures self.new ≡ failures self.old) }
        ensures rose { OnErr result (Rose (failures self.old) (failures self.new)) }
        ensures calls { leads_to 1 self.old self.new };

    /// Leaves the first `len` bytes.
    fn cut(&mut self, len: usize) -> Result<(), Failed>
        requires { is_modelled → len ≤ length (content self.old) }
        ensures cut { OnOk result (content self.new ≡ take len (content self.old)) }
        ensures left { OnErr result (may_leave [] (content self.old) (content self.new)) }
        ensures kept { OnOk result (kept self.new ≡ take len (kept self.old)) }
        ensures front { OnErr result (BeginsWith (take len (kept self.old)) (kept self.new)) }
        ensures counts { OnOk result (failures self.new ≡ failures self.old) }
        ensures rose { OnErr result (Rose (failures self.old) (failures self.new)) }
        ensures calls { leads_to 1 self.old self.new };

    /// What is kept is at the front of what a read gives.
    ghost keeps: { (device : Self) → BeginsWith (kept device) (content device) };

    /// Any number of calls may be none.
    ghost stays: { (most : ℕ) (device : Self) → leads_to most device device };

    /// Calls follow calls.
    ghost goes_on: { (first second most : ℕ) (a b c : Self) → first + second ≤ most → leads_to first a b → leads_to second b c → leads_to most a c };
}
