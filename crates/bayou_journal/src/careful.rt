//! A device that cuts no more than one torn entry.
ghost use Rattle.std.specs.Prelude.{◌≡◌, ◌+◌, ◌-◌, ◌≤◌, ◌++◌, ◌⊎◌, [], None, Some, IfNone, IfSome, drop, length, take, nat_le, if◌then◌else◌, option_copied, IfOk, IsErrOf, OnErr, OnOk};
ghost use Rattle.std.specs.Option.{ForSome};
ghost use Rattle.bayou_device.specs.Device.{BeginsWith, Rose};
ghost use Rattle.bayou_journal.specs.Careful.{IsCareful, IsDamage, IsLeft, behind as behind_of, end_of, entry_of};
ghost use Rattle.bayou_journal.specs.declared.format.TheConstants.{ENTRY_BYTES};

use crate::format::{ENTRY_BYTES, HEADER_BYTES};
use crate::torn::{Tear, tear_of};
use bayou_device::{Device, Failed, ReadFault};
use std::alloc::{AllocError, Global};
use std::fmt;
use std::marker::Model;

/// What a cut that was refused would have dropped.
#[derive(Clone, Copy, Debug, PartialEq, Eq)]
pub struct Damage {
    /// How many bytes at the front were to stay.
    pub whole: usize,
    /// How many bytes after them were to go.
    pub behind: usize,
}

impl fmt::Display for Damage {
    ghost use Rattle.std.specs.Prelude.{Some};
    ghost use Rattle.bayou_journal.specs.Careful.{damage_text};

    ghost output = { λ damage. Some (damage_text damage) };

    fn fmt<W: fmt::Write>(&self, f: &mut fmt::Formatter<W>) -> fmt::Result {
        let (whole, behind) = (self.whole, self.behind);
        write!(
            f,
            "it is whole up to byte {whole}, and the {behind} bytes behind that are damaged; nothing was changed"
        )
    }
}

/// The last entry, which was dropped though all its bytes were there.
#[derive(Clone, Copy, Debug, PartialEq, Eq)]
pub struct DamagedEntry {
    /// The number of its first byte, from 0 on.
    pub start: usize,
    pub bytes: usize,
}

impl fmt::Display for DamagedEntry {
    ghost use Rattle.std.specs.Prelude.{Some};
    ghost use Rattle.bayou_journal.specs.Careful.{entry_text};

    ghost output = { λ entry. Some (entry_text entry) };

    fn fmt<W: fmt::Write>(&self, f: &mut fmt::Formatter<W>) -> fmt::Result {
        let (start, bytes) = (self.start, self.bytes);
        write!(
            f,
            "the last entry is damaged: its {bytes} bytes from byte {start} on were dropped"
        )
    }
}

// How many bytes a read gave, and the last of them, as many as an entry has at the most.
#[derive(Drop)]
struct Ending {
    size: usize,
    tail: Vec<u8>,
}

impl Model for Ending {
    ghost use Rattle.bayou_journal.specs.Careful.{Ended};

    ghost Value = { Ended };

    ghost view = { λ ending. record { size = ending.size; tail = ending.tail.items } };
}

impl Ending {
    // The end of these bytes.
    fn of(alloc: Global, bytes: &[u8]) -> Result<Self, AllocError>
        ensures { IfOk result (λ ending. ending ≡ end_of bytes.now) }
    {
        let size = bytes.len();
        let (_, tail) = bytes.split_at(size.saturating_sub(ENTRY_BYTES));
        Ok(Ending {
            size,
            tail: tail.to_vec(alloc)?,
        })
    }

    // What the bytes after so many at the front are, where an append may have left them that was cut off.
    #[tactic(auto, using(crate::proofs::Tails::none_left))]
    fn tear_behind(&self, len: usize) -> Option<Tear>
        ensures some { IfSome result (λ tear. ForSome (behind_of self.now len) (λ bytes. IsLeft self.now.size bytes tear × (length bytes ≡ self.now.size - len)) × (self.now.size - len ≤ length self.now.tail)) }
        ensures none { IfNone result (ForSome (behind_of self.now len) (λ bytes. (tear : Tear) → ¬ IsLeft self.now.size bytes tear)) }
    {
        let behind = self.size.saturating_sub(len);
        let first = self.tail.len().checked_sub(behind)?;
        if self.size < HEADER_BYTES {
            return Some(Tear::Unfinished);
        }
        let (_, bytes) = self.tail.split_at(first);
        tear_of(bytes)
    }
}

// What is reported of a cut after so many bytes which took so many.
fn entry_of_tear(tear: Tear, len: usize, count: usize) -> Option<DamagedEntry>
    ensures { result ≡ entry_of tear len count }
{
    match tear {
        Tear::Unfinished => None,
        Tear::Whole => Some(DamagedEntry {
            start: len,
            bytes: count,
        }),
    }
}

/// A device whose cuts take no more than one entry that was torn. Where each append is synced before the next one, a failed or lost call that
/// leaves a front of what it was to add, one entry or several, tears no more than one of them: what is more is damage, and not for a cut to
/// mend. A cut of more is refused, changes nothing, and counts as a failure; so is one that isn't made right after a read.
#[derive(Drop)]
pub struct CarefulDevice<D: Device> {
    device: D,
    /// The end of what a read gave, if nothing was added or cut since.
    read: Option<Ending>,
    failures: u64,
    damage: Option<Damage>,
    entry: Option<DamagedEntry>,
    ghost known: { D.is_modelled → ForSome read (λ ending. ending ≡ end_of (D.content device)) },
}

impl<D: Device> CarefulDevice<D> {
    /// The device, with care.
    pub fn new(device: D) -> Self
        ensures device { result.device ≡ device }
        ensures none { (result.read ≡ None) × (result.failures ≡ 0) }
        ensures untold { (result.damage ≡ None) × (result.entry ≡ None) }
    {
        CarefulDevice {
            device,
            read: None,
            failures: 0,
            damage: None,
            entry: None,
        }
    }

    // One call more failed.
    fn count_failure(&mut self)
        ensures rose { Rose self.old.failures self.new.failures }
        ensures others { (self.new.device ≡ self.old.device) × (self.new.read ≡ self.old.read) × (self.new.damage ≡ self.old.damage) × (self.new.entry ≡ self.old.entry) }
    {
        self.failures = self.failures.saturating_add(1);
    }

    /// What the last cut would have dropped, where it was refused for that, and nothing was read since.
    pub fn damage(&self) -> Option<Damage>
        ensures { result ≡ self.now.damage }
    {
        self.damage
    }

    /// The entry that the last cut dropped, where all its bytes were there, and nothing was read since.
    pub fn entry(&self) -> Option<DamagedEntry>
        ensures { result ≡ self.now.entry }
    {
        self.entry
    }
}

impl<D: Device> Device for CarefulDevice<D> {
    ghost use Rattle.std.specs.Prelude.{◌≡◌, ◌⊎◌};

    ghost is_modelled = { D.is_modelled };

    ghost content = { λ careful. D.content careful.device };

    ghost kept = { λ careful. D.kept careful.device };

    ghost failures = { λ careful. careful.failures };

    ghost may_leave = { λ piece before after. D.may_leave piece before after ⊎ (after ≡ before) };

    ghost leads_to = { λ most old new. D.leads_to most old.device new.device };

    fn read_all(&mut self, alloc: Global) -> Result<Vec<u8>, ReadFault>
        ensures bytes { D.is_modelled → IfOk result (λ bytes. bytes.items ≡ D.content self.old.device) }
        ensures same { OnOk result (D.content self.new.device ≡ D.content self.old.device) }
        ensures left { IsErrOf result ReadFault.Failed → D.may_leave [] (D.content self.old.device) (D.content self.new.device) ⊎ (D.content self.new.device ≡ D.content self.old.device) }
        ensures memory { IsErrOf result ReadFault.OutOfMemory → D.content self.new.device ≡ D.content self.old.device }
        ensures kept { D.kept self.new.device ≡ D.kept self.old.device }
        ensures counts { OnOk result (self.new.failures ≡ self.old.failures) }
        ensures rose { IsErrOf result ReadFault.Failed → Rose self.old.failures self.new.failures }
        ensures memory_counts { IsErrOf result ReadFault.OutOfMemory → self.new.failures ≡ self.old.failures }
        ensures calls { D.leads_to 1 self.old.device self.new.device }
        // It fails where the device does.
        ensures fails { IsErrOf result ReadFault.Failed → Rose (D.failures self.old.device) (D.failures self.new.device) }
        // From then on the end is known, and what was reported of an earlier cut is no more.
        ensures read { IfOk result (λ bytes. self.new.read ≡ Some (end_of bytes.items)) }
        ensures untold { (self.new.damage ≡ None) × (self.new.entry ≡ None) }
    {
        self.damage = None;
        self.entry = None;
        self.read = None;
        match self.device.read_all(alloc) {
            Ok(bytes) => {
                let Ok(ending) = Ending::of(alloc, bytes.as_slice()) else {
                    return Err(ReadFault::OutOfMemory);
                };
                self.read = Some(ending);
                Ok(bytes)
            }
            Err(ReadFault::Failed) => {
                self.count_failure();
                Err(ReadFault::Failed)
            }
            Err(ReadFault::OutOfMemory) => Err(ReadFault::OutOfMemory),
        }
    }

    fn append(&mut self, piece: &[u8]) -> Result<(), Failed>
        ensures added { D.is_modelled → OnOk result (D.content self.new.device ≡ D.content self.old.device ++ piece.now) }
        ensures left { OnErr result (D.may_leave piece.now (D.content self.old.device) (D.content self.new.device) ⊎ (D.content self.new.device ≡ D.content self.old.device)) }
        ensures kept { D.kept self.new.device ≡ D.kept self.old.device }
        ensures counts { OnOk result (self.new.failures ≡ self.old.failures) }
        ensures rose { OnErr result (Rose self.old.failures self.new.failures) }
        ensures calls { D.leads_to 1 self.old.device self.new.device }
        // It fails exactly where the device does.
        ensures done { OnOk result (D.failures self.new.device ≡ D.failures self.old.device) }
        ensures fails { OnErr result (Rose (D.failures self.old.device) (D.failures self.new.device)) }
        ensures others { (self.new.read ≡ None) × (self.new.damage ≡ self.old.damage) × (self.new.entry ≡ self.old.entry) }
    {
        self.read = None;
        match self.device.append(piece) {
            Ok(()) => Ok(()),
            Err(Failed) => {
                self.count_failure();
                Err(Failed)
            }
        }
    }

    fn sync(&mut self) -> Result<(), Failed>
        ensures same { OnOk result (D.content self.new.device ≡ D.content self.old.device) }
        ensures synced { OnOk result (D.kept self.new.device ≡ D.content self.old.device) }
        ensures left { OnErr result (D.may_leave [] (D.content self.old.device) (D.content self.new.device) ⊎ (D.content self.new.device ≡ D.content self.old.device)) }
        ensures kept { OnErr result (D.kept self.new.device ≡ D.kept self.old.device) }
        ensures counts { OnOk result (self.new.failures ≡ self.old.failures) }
        ensures rose { OnErr result (Rose self.old.failures self.new.failures) }
        ensures calls { D.leads_to 1 self.old.device self.new.device }
        // It fails exactly where the device does.
        ensures done { OnOk result (D.failures self.new.device ≡ D.failures self.old.device) }
        ensures fails { OnErr result (Rose (D.failures self.old.device) (D.failures self.new.device)) }
        ensures read { OnOk result (self.new.read ≡ self.old.read) }
        ensures others { (self.new.damage ≡ self.old.damage) × (self.new.entry ≡ self.old.entry) }
    {
        match self.device.sync() {
            Ok(()) => Ok(()),
            Err(Failed) => {
                self.read = None;
                self.count_failure();
                Err(Failed)
            }
        }
    }

    fn cut(&mut self, len: usize) -> Result<(), Failed>
        requires { D.is_modelled → len ≤ length (D.content self.old.device) }
        ensures cut { OnOk result (D.content self.new.device ≡ take len (D.content self.old.device)) }
        ensures left { OnErr result (D.may_leave [] (D.content self.old.device) (D.content self.new.device) ⊎ (D.content self.new.device ≡ D.content self.old.device)) }
        ensures kept { OnOk result (D.kept self.new.device ≡ take len (D.kept self.old.device)) }
        ensures front { OnErr result (BeginsWith (take len (D.kept self.old.device)) (D.kept self.new.device)) }
        ensures counts { OnOk result (self.new.failures ≡ self.old.failures) }
        ensures rose { OnErr result (Rose self.old.failures self.new.failures) }
        ensures calls { D.leads_to 1 self.old.device self.new.device }
        // What goes is what an append may have left that was cut off, and is reported where it is a whole entry.
        ensures careful { OnOk result (IsCareful self.old.read len self.new.entry) }
        ensures torn { D.is_modelled → OnOk result ((tear : Tear) × IsLeft (length (D.content self.old.device)) (drop len (D.content self.old.device)) tear) }
        // It fails where the device does, and where more would go: then nothing changes, and the damage is reported.
        ensures refused { OnErr result (Rose (D.failures self.old.device) (D.failures self.new.device) ⊎ ((self.new.device ≡ self.old.device) × IsDamage self.old.read len self.new.damage)) }
        ensures read { self.new.read ≡ None }
    {
        self.damage = None;
        self.entry = None;
        let Some(ending) = self.read.take() else {
            self.count_failure();
            return Err(Failed);
        };
        let behind = ending.size.saturating_sub(len);
        let Some(tear) = ending.tear_behind(len) else {
            self.damage = Some(Damage { whole: len, behind });
            self.count_failure();
            return Err(Failed);
        };
        match self.device.cut(len) {
            Ok(()) => {
                self.entry = entry_of_tear(tear, len, behind);
                Ok(())
            }
            Err(Failed) => {
                self.count_failure();
                Err(Failed)
            }
        }
    }

    ghost keeps = { λ careful. D.keeps careful.device };

    ghost stays = { λ most careful. D.stays most careful.device };

    ghost goes_on = { λ first second most a b c. D.goes_on first second most a.device b.device c.device };
}
