//! How long the file of a device is to be, by what is written to it, for whoever looks at the file meanwhile.
ghost use Rattle.std.specs.Prelude.{◌≡◌};
ghost use Rattle.bayou_serve.specs.Straying.{fits};

use bayou_device::{Device, Failed, ReadFault};
use std::alloc::Global;
use std::sync::atomic::{AtomicU64, Ordering};

/// How many bytes a file has, at least and at most: while a call is under way, and after one that failed, it isn't known more closely.
#[derive(Clone, Copy, Debug, PartialEq, Eq)]
pub struct Bounds {
    pub least: u64,
    pub most: u64,
}

/// Whether a length that was seen between two moments is one that the file may have had between them, by what was known at either.
pub fn is_as_written(len: u64, before: Bounds, after: Bounds) -> bool
    ensures { result ≡ fits len before after }
{
    before.least.min(after.least) <= len && len <= before.most.max(after.most)
}

/// The bounds of a file's length as one thread writes it and another looks.
#[derive(Drop)]
pub struct FileExtent {
    least: AtomicU64,
    most: AtomicU64,
}

impl FileExtent {
    /// Of a file of which nothing is known yet.
    pub fn unknown() -> Self {
        FileExtent {
            least: AtomicU64::new(0),
            most: AtomicU64::new(u64::MAX),
        }
    }

    /// What is known now.
    pub fn bounds(&self) -> Bounds {
        Bounds {
            least: self.least.load(Ordering::SeqCst),
            most: self.most.load(Ordering::SeqCst),
        }
    }

    // It is to have so many bytes: at most as many as that or as it had.
    fn shrink_to(&self, len: u64) {
        self.least.fetch_min(len, Ordering::SeqCst);
    }

    // It has just so many bytes.
    fn set(&self, len: u64) {
        self.least.store(len, Ordering::SeqCst);
        self.most.store(len, Ordering::SeqCst);
    }

    // It may have so many bytes more.
    fn may_grow(&self, by: u64) {
        let most = self.most.load(Ordering::SeqCst);
        self.most.store(most.saturating_add(by), Ordering::SeqCst);
    }

    // It has so many bytes more.
    fn has_grown(&self, by: u64) {
        let least = self.least.load(Ordering::SeqCst);
        self.least.store(least.saturating_add(by), Ordering::SeqCst);
    }
}

/// A device, and how long its file is to be by the calls of the device.
#[derive(Drop)]
pub struct Watched<'a, D> {
    device: D,
    extent: &'a FileExtent,
}

impl<'a, D> Watched<'a, D> {
    /// The device, whose calls are noted there.
    pub fn new(device: D, extent: &'a FileExtent) -> Self
        ensures { result.device ≡ device }
    {
        Watched { device, extent }
    }
}

impl<D: Device> Device for Watched<'_, D> {
    ghost is_modelled = { D.is_modelled };

    ghost content = { λ watched. D.content watched.device };

    ghost kept = { λ watched. D.kept watched.device };

    ghost failures = { λ watched. D.failures watched.device };

    ghost may_leave = { D.may_leave };

    ghost leads_to = { λ most old new. D.leads_to most old.device new.device };

    fn read_all(&mut self, alloc: Global) -> Result<Vec<u8>, ReadFault> {
        let bytes = self.device.read_all(alloc)?;
        self.extent.set(bytes.len() as u64);
        Ok(bytes)
    }

    fn append(&mut self, piece: &[u8]) -> Result<(), Failed> {
        let more = piece.len() as u64;
        self.extent.may_grow(more);
        self.device.append(piece)?;
        self.extent.has_grown(more);
        Ok(())
    }

    fn sync(&mut self) -> Result<(), Failed> {
        self.device.sync()
    }

    fn cut(&mut self, len: usize) -> Result<(), Failed> {
        self.extent.shrink_to(len as u64);
        self.device.cut(len)?;
        self.extent.set(len as u64);
        Ok(())
    }

    ghost keeps = { λ watched. D.keeps watched.device };

    ghost stays = { λ most watched. D.stays most watched.device };

    ghost goes_on = { λ first second most a b c. D.goes_on first second most a.device b.device c.device };
}
