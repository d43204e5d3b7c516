//! Entries and dumps that stand for a history.
ghost use Rattle.std.specs.Prelude.{◌≡◌, ◌<◌, ◌≤◌, IfNone, IfSome, Some, length, slice_get};
ghost use Rattle.bayou_base.specs.declared.limits.TheConstants.{SERVERS};
ghost use Rattle.bayou_judge.specs.History.{dump_of, lent_lists};

use crate::index::Index;
use bayou_base::Entry;
use bayou_lang::RestingWrite;
use std::marker::Model;

/// The Writes of the server's dump; beyond the last there are none.
pub(crate) fn dump_at<'a>(dumps: &[&'a [RestingWrite]], server: usize) -> &'a [RestingWrite]
    ensures { result.now ≡ dump_of (lent_lists dumps.now) server }
{
    match dumps.get(server) {
        Some(dump) => dump,
        None => &[],
    }
}

/// Entries and dumps of so many servers that stand for a history, with an index of each dump. That they were checked is what
/// the type says, so no function asks for it again.
#[derive(Drop)]
pub(crate) struct Evidence<'a> {
    count: u8,
    entries: &'a [Entry],
    dumps: &'a [&'a [RestingWrite]],
    indexes: &'a [Index],
}

impl<'a> Model for Evidence<'a> {
    ghost use Rattle.bayou_judge.specs.History.{lent_lists};
    ghost use Rattle.bayou_judge.specs.Inner.Needs.{IndexedEvidence, IsChecked};

    ghost Value = { IndexedEvidence };

    ghost view = { λ e. record { count = e.count; entries = e.entries.now; dumps = lent_lists e.dumps.now; indexes = e.indexes.now } };

    ghost invariant = { λ e. IsChecked e.count e.entries.now (lent_lists e.dumps.now) e.indexes.now };
}

impl<'a> Evidence<'a> {
    ghost use Rattle.bayou_judge.specs.Inner.Index.{IsIndexOf};
    ghost use Rattle.bayou_judge.specs.Inner.Needs.{IsChecked, IsServed};

    /// What was checked and indexed.
    pub(crate) fn new(
        count: u8,
        entries: &'a [Entry],
        dumps: &'a [&'a [RestingWrite]],
        indexes: &'a [Index],
    ) -> Self
        requires { IsChecked count entries.now (lent_lists dumps.now) indexes.now }
        ensures { result ≡ record { count = count; entries = entries.now; dumps = lent_lists dumps.now; indexes = indexes.now } }
    {
        Evidence {
            count,
            entries,
            dumps,
            indexes,
        }
    }

    /// Recalls that it was checked. It does nothing.
    pub(crate) fn recall(&self)
        ensures { IsChecked self.now.count self.now.entries self.now.dumps self.now.indexes }
    {
        let _ = &self.count;
    }

    /// How many servers there are, and as many dumps.
    pub(crate) fn servers(&self) -> u8
        ensures dumps { length self.now.dumps ≡ result }
        ensures few { result ≤ SERVERS }
    {
        self.count
    }

    /// How many entries there are.
    pub(crate) fn size(&self) -> usize
        ensures { result ≡ length self.now.entries }
    {
        self.entries.len()
    }

    /// The entry at this place.
    pub(crate) fn entry(&self, at: usize) -> &'a Entry
        requires { at < length self.now.entries }
        ensures is { slice_get self.now.entries at ≡ Some result.now }
        ensures served { IsServed (dump_of self.now.dumps result.now.server.index) result.now.what }
        ensures home { result.now.server.index < length self.now.dumps }
    {
        let entries = self.entries;
        &entries[at]
    }

    /// The Writes of the server's dump; beyond the last there are none.
    pub(crate) fn dump(&self, server: usize) -> &'a [RestingWrite]
        ensures { result.now ≡ dump_of self.now.dumps server }
    {
        dump_at(self.dumps, server)
    }

    /// The index of the server's dump.
    pub(crate) fn index(&self, server: usize) -> Option<&'a Index>
        ensures there { IfSome result (λ index. IsIndexOf (dump_of self.now.dumps server) index.now) }
        ensures beyond { IfNone result (length self.now.dumps ≤ server) }
    {
        self.indexes.get(server)
    }
}
