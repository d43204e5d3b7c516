ghost use Rattle.std.specs.Prelude.{◌≡◌, ◌<◌, ◌≤◌, ◌⊎◌, ◌↔◌, [], ◌++◌, length, take, IfOk, IsErr, IsErrOf, IsSome, OnErr, OnOk};
ghost use Rattle.bayou_device.specs.Device.{BeginsWith, Rose, one_more};
ghost use Rattle.bayou_device.specs.Memory.{AddsFront, AreCounts, FailsAtFuse, LeadsTo, after_call, after_lack, burnt, crashed, cut_to, device_with, empty_device, front_due, kept_bytes, lacking, shortened, with_fuse};
ghost use Rattle.bayou_device.specs.Laws.Memory.{front_is_kept, more_calls, no_call};

use crate::device::{Device, Failed, ReadFault};
use crate::fuse::Fuse;
use crate::gate::Gate;
use std::alloc::{AllocError, Global};
use std::marker::Model;

/// A device in memory. It fails where a fuse goes off, and where an append finds no memory. Its counts stay at their greatest
/// value once they have it.
#[derive(Drop)]
pub struct MemoryDevice<G: Gate> {
    bytes: Vec<u8>,
    synced: usize,
    fuse: Option<Fuse>,
    calls: u64,
    failures: u64,
    lacks: u64,
    gate: G,
}

impl<G: Gate> Model for MemoryDevice<G> {
    ghost use Rattle.std.specs.Prelude.{◌≤◌, vec_len};
    ghost use Rattle.bayou_device.specs.Memory.{AreCounts, Memory};

    ghost Value = { Memory };

    ghost view = { λ d. record {
      bytes = d.bytes.items;
      synced = d.synced;
      fuse = d.fuse;
      calls = d.calls;
      failures = d.failures;
      lacks = d.lacks;
    } };

    ghost invariant = { λ d. (d.synced ≤ vec_len d.bytes) × AreCounts d.calls d.failures d.lacks };
}

// One call more: how much of a piece is added where the fuse goes off at it.
fn burn(fuse: &mut Option<Fuse>) -> Option<usize>
    ensures burnt { fuse.new ≡ burnt fuse.old }
    ensures due { result ≡ front_due fuse.old }
{
    let waits = (*fuse)?;
    if waits.calls <= 1 {
        *fuse = None;
        return Some(waits.kept);
    }
    *fuse = Some(Fuse {
        calls: waits.calls - 1,
        kept: waits.kept,
    });
    None
}

impl<G: Gate> MemoryDevice<G> {
    /// An empty device.
    pub fn new(alloc: Global, gate: G) -> Self
        ensures { result ≡ empty_device }
    {
        MemoryDevice::with_bytes(Vec::new(alloc), gate)
    }

    /// A device that has these bytes, all of them synced.
    pub fn with_bytes(bytes: Vec<u8>, gate: G) -> Self
        ensures { result ≡ device_with bytes.items }
    {
        let synced = bytes.len();
        MemoryDevice {
            bytes,
            synced,
            fuse: None,
            calls: 0,
            failures: 0,
            lacks: 0,
            gate,
        }
    }

    /// What a read gives. It is no device call.
    pub fn bytes(&self) -> &[u8]
        ensures { result.now ≡ self.now.bytes }
    {
        self.bytes.as_slice()
    }

    /// How many device calls were made.
    pub fn calls(&self) -> u64
        ensures { result ≡ self.now.calls }
    {
        self.calls
    }

    /// How many of them failed.
    pub fn failures(&self) -> u64
        ensures { result ≡ self.now.failures }
    {
        self.failures
    }

    /// How many of those were appends that found no memory.
    pub fn lacks(&self) -> u64
        ensures value { result ≡ self.now.lacks }
        ensures each { self.now.lacks ≤ self.now.failures }
    {
        self.lacks
    }

    /// The `calls`-th device call from now fails, once. If it is an append, the first `kept` bytes of its piece are added,
    /// or all if it is shorter. A fuse that still waits is forgotten.
    pub fn fuse(&mut self, calls: u32, kept: usize)
        requires { 0 < calls }
        ensures { self.new ≡ with_fuse calls kept self.old }
    {
        self.fuse = Some(Fuse { calls, kept });
    }

    /// The last `count` bytes are gone, or all if it has fewer, synced or not: what no honest device does. It is no device
    /// call.
    pub fn lose(&mut self, count: usize)
        ensures { self.new ≡ shortened count self.old }
    {
        let left = self.bytes.len().saturating_sub(count);
        self.bytes.truncate(left);
        self.synced = self.synced.min(left);
    }

    /// A crash: what was synced stays, and the tail stands after it. It is no device call, and a fuse goes on waiting.
    /// Where memory is refused, nothing changes.
    pub fn crash(&mut self, tail: &[u8]) -> Result<(), AllocError>
        ensures ok { OnOk result (self.new ≡ crashed tail.now self.old) }
        ensures kept { OnOk result (kept_bytes self.new ≡ kept_bytes self.old) }
        ensures err { OnErr result (self.new ≡ self.old) }
    {
        let gone = self.bytes.len() - self.synced;
        self.bytes.try_reserve(tail.len().saturating_sub(gone))?;
        self.bytes.truncate(self.synced);
        let Ok(()) = self.bytes.extend_from_slice(tail) else {
            unreachable!();
        };
        Ok(())
    }

    // One device call more: how much of a piece is added where it fails.
    fn call(&mut self) -> Option<usize>
        ensures after { self.new ≡ after_call self.old }
        ensures due { result ≡ front_due self.old.fuse }
        ensures counts { AreCounts self.old.calls self.old.failures self.old.lacks }
    {
        self.calls = self.calls.saturating_add(1);
        let kept = burn(&mut self.fuse)?;
        self.failures = self.failures.saturating_add(1);
        Some(kept)
    }

    // Adds the front of a piece at a call that has failed.
    fn add_front(&mut self, front: &[u8])
        requires { one_more self.old.lacks ≤ self.old.failures }
        ensures { (self.new ≡ record self.old { bytes = self.old.bytes ++ front.now }) ⊎ (self.new ≡ lacking self.old) }
    {
        if self.bytes.extend_from_slice(front).is_err() {
            self.lacks = self.lacks.saturating_add(1);
        }
    }

    // Adds a whole piece, which fails where memory is refused.
    fn add_whole(&mut self, piece: &[u8]) -> Result<(), Failed>
        ensures ok { OnOk result (self.new ≡ record self.old { bytes = self.old.bytes ++ piece.now }) }
        ensures err { OnErr result (self.new ≡ record (lacking self.old) { failures = one_more self.old.failures }) }
    {
        if self.bytes.extend_from_slice(piece).is_err() {
            self.failures = self.failures.saturating_add(1);
            self.lacks = self.lacks.saturating_add(1);
            return Err(Failed);
        }
        Ok(())
    }
}

impl<G: Gate> Device for MemoryDevice<G> {
    ghost is_modelled = { Unit {0} };

    ghost content = { λ device. device.bytes };

    ghost kept = { kept_bytes };

    ghost failures = { λ device. device.failures };

    ghost may_leave = { AddsFront };

    ghost leads_to = { LeadsTo };

    ghost keeps = { front_is_kept };

    ghost stays = { no_call };

    ghost goes_on = { more_calls };

    fn read_all(&mut self, alloc: Global) -> Result<Vec<u8>, ReadFault>
        ensures bytes { IfOk result (λ bytes. bytes.items ≡ self.old.bytes) }
        ensures same { OnOk result (self.new.bytes ≡ self.old.bytes) }
        ensures left { IsErrOf result ReadFault.Failed → AddsFront [] self.old.bytes self.new.bytes }
        ensures memory { IsErrOf result ReadFault.OutOfMemory → self.new.bytes ≡ self.old.bytes }
        ensures kept { kept_bytes self.new ≡ kept_bytes self.old }
        ensures counts { OnOk result (self.new.failures ≡ self.old.failures) }
        ensures rose { IsErrOf result ReadFault.Failed → Rose self.old.failures self.new.failures }
        ensures memory_counts { IsErrOf result ReadFault.OutOfMemory → self.new.failures ≡ self.old.failures }
        ensures calls { LeadsTo 1 self.old self.new }

        ensures after { self.new ≡ after_call self.old }
        ensures due { IsErrOf result ReadFault.Failed ↔ IsSome (front_due self.old.fuse) }
    {
        if self.call().is_some() {
            return Err(ReadFault::Failed);
        }
        match self.bytes.to_vec(alloc) {
            Ok(bytes) => Ok(bytes),
            Err(_) => Err(ReadFault::OutOfMemory),
        }
    }

    fn append(&mut self, piece: &[u8]) -> Result<(), Failed>
        ensures added { OnOk result (self.new.bytes ≡ self.old.bytes ++ piece.now) }
        ensures left { OnErr result (AddsFront piece.now self.old.bytes self.new.bytes) }
        ensures kept { kept_bytes self.new ≡ kept_bytes self.old }
        ensures counts { OnOk result (self.new.failures ≡ self.old.failures) }
        ensures rose { OnErr result (Rose self.old.failures self.new.failures) }
        ensures calls { LeadsTo 1 self.old self.new }

        ensures not_due { OnOk result (front_due self.old.fuse ≡ None) }
        ensures whole { OnOk result (self.new ≡ record (after_call self.old) { bytes = self.old.bytes ++ piece.now }) }
        ensures front { OnErr result ((self.new ≡ after_lack self.old) ⊎ FailsAtFuse piece.now self.old self.new) }
    {
        self.gate.pass(self.bytes.len());
        let Some(kept) = self.call() else {
            return self.add_whole(piece);
        };
        self.add_front(&piece[..kept.min(piece.len())]);
        Err(Failed)
    }

    fn sync(&mut self) -> Result<(), Failed>
        ensures same { OnOk result (self.new.bytes ≡ self.old.bytes) }
        ensures synced { OnOk result (kept_bytes self.new ≡ self.old.bytes) }
        ensures left { OnErr result (AddsFront [] self.old.bytes self.new.bytes) }
        ensures kept { OnErr result (kept_bytes self.new ≡ kept_bytes self.old) }
        ensures counts { OnOk result (self.new.failures ≡ self.old.failures) }
        ensures rose { OnErr result (Rose self.old.failures self.new.failures) }
        ensures calls { LeadsTo 1 self.old self.new }

        ensures due { IsErr result ↔ IsSome (front_due self.old.fuse) }
        ensures done { OnOk result (self.new ≡ record (after_call self.old) { synced = length self.old.bytes }) }
        ensures failed { OnErr result (self.new ≡ after_call self.old) }
    {
        if self.call().is_some() {
            return Err(Failed);
        }
        self.synced = self.bytes.len();
        Ok(())
    }

    fn cut(&mut self, len: usize) -> Result<(), Failed>
        ensures cut { OnOk result (self.new.bytes ≡ take len self.old.bytes) }
        ensures left { OnErr result (AddsFront [] self.old.bytes self.new.bytes) }
        ensures kept { OnOk result (kept_bytes self.new ≡ take len (kept_bytes self.old)) }
        ensures front { OnErr result (BeginsWith (take len (kept_bytes self.old)) (kept_bytes self.new)) }
        ensures counts { OnOk result (self.new.failures ≡ self.old.failures) }
        ensures rose { OnErr result (Rose self.old.failures self.new.failures) }
        ensures calls { LeadsTo 1 self.old self.new }

        ensures due { IsErr result ↔ IsSome (front_due self.old.fuse) }
        ensures done { OnOk result (self.new ≡ cut_to len (after_call self.old)) }
        ensures failed { OnErr result (self.new ≡ after_call self.old) }
    {
        if self.call().is_some() {
            return Err(Failed);
        }
        self.bytes.truncate(len);
        self.synced = self.synced.min(len);
        Ok(())
    }
}
