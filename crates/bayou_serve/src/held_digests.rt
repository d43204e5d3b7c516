//! Digests of what a server holds, as two servers compare them.
ghost use Rattle.std.specs.Prelude.{◌≡◌, ◌≤◌, ◌<◌, ◌+◌, ◌^◌, ◌++◌, ◌∷◌, ◌↔◌, [], ℕ, All, IfSome, IsSome, IsTrue, List, None, OnErr, OnOk, Some, length, map, min, slice_index};
ghost use Rattle.bayou_base.specs.declared.limits.TheConstants.{MAX_WRITES};
ghost use Rattle.bayou_base.specs.declared.server.ServerId.{ServerId as Server};
ghost use Rattle.bayou_greeting.specs.OriginDigests.{AreDigestsOf};
ghost use Rattle.bayou_serve.specs.HeldDigests.{DifferFrom, HasRead, Narrows, TellsAt, TellsUpTo, digest_at};
ghost use Rattle.bayou_restore.specs.Restoring.{own_of};
ghost use Rattle.bayou_wire.specs.Spelling.{write_bytes};
ghost use Rattle.bayou_wire.specs.declared.layout.TheConstants.{DIGESTS_AT_ONCE};

use arrayvec::ArrayVec;
use bayou_base::{MAX_WRITES, SERVERS, ServerId, Vector};
use bayou_greeting::OriginDigests;
use bayou_greeting::origin_digests::NO_WRITES;
use bayou_lang::RestingWrite;
use bayou_wire::layout::DIGESTS_AT_ONCE;
use bayou_wire::{Digests, Held, Inquiry, encode_resting_write};
use std::alloc::{AllocError, Global};
use std::array;

/// Between which two counts of an origin's Writes the first one that differs is: the first `low` are the same, and of the first `high` one is another.
#[derive(Clone, Copy, Debug, PartialEq, Eq)]
pub struct DigestSpan {
    pub low: u32,
    pub high: u32,
}

impl DigestSpan {
    /// Of which counts the digests are asked next: as many as are asked at once, at equal distances.
    pub fn counts(self) -> ArrayVec<u32, DIGESTS_AT_ONCE>
        ensures within { All (λ count. (self.low < count) × (count < self.high)) result.items }
        ensures some { self.low + 1 < self.high → 0 < length result.items }
    {
        let mut counts = ArrayVec::new();
        let width = self.high.saturating_sub(self.low);
        let step = width / (DIGESTS_AT_ONCE as u32 + 1) + 1;
        let mut count = self.low;
        while counts.len() < DIGESTS_AT_ONCE && self.high.saturating_sub(count) > step {
            count += step;
            counts.push(count);
        }
        counts
    }

    /// The first Write that differs, where it is known.
    pub fn first(self) -> Option<u32>
        ensures known { IfSome result (λ first. first ≡ self.high) }
    {
        if self.high == self.low.saturating_add(1) {
            Some(self.high)
        } else {
            None
        }
    }
}

/// The digests of the Writes that a server holds, as far as they were read in order of receipt: of each origin those of its first so many.
#[derive(Drop)]
pub struct HeldDigests {
    origins: [OriginDigests; SERVERS],
    read: usize,
}

impl HeldDigests {
    /// Nothing was read yet.
    pub fn new(alloc: Global) -> Self
        ensures none { (origin : Server) → HasRead result origin [] }
        ensures read { result.read ≡ 0 }
    {
        HeldDigests {
            origins: array::from_fn(
                |_| -> OriginDigests
                    ensures { AreDigestsOf result [] }
                { OriginDigests::new(alloc) },
            ),
            read: 0,
        }
    }

    /// How many Writes were read.
    pub fn read(&self) -> usize
        ensures { result ≡ self.now.read }
    {
        self.read
    }

    // Adds the next Write. Want of memory is the only refusal, and changes nothing that is reported.
    fn add(&mut self, alloc: Global, write: &RestingWrite) -> Result<(), AllocError>
        ensures own { (writes : List (List ℕ)) → HasRead self.old write.now.wid.origin writes → OnOk result (HasRead self.new write.now.wid.origin (writes ++ write_bytes write.now ∷ [])) }
        ensures others { (origin : Server) (writes : List (List ℕ)) → ¬ (origin.index ≡ write.now.wid.origin.index) → HasRead self.old origin writes → HasRead self.new origin writes }
        ensures counted { self.old.read + 1 < 2 ^ 64 → OnOk result (self.new.read ≡ self.old.read + 1) }
        ensures refused { (origin : Server) (writes : List (List ℕ)) → HasRead self.old origin writes → OnErr result ((self.new.read ≡ self.old.read) × HasRead self.new origin writes) }
    {
        let wid = write.wid();
        let bytes = encode_resting_write(alloc, write)?;
        self.origins[usize::from(wid.origin.index)].extend(&bytes)?;
        self.read = self.read.saturating_add(1);
        Ok(())
    }

    /// Adds the Writes that stand after so many, if no others were added there meanwhile. Where memory is wanting, those before are added.
    pub fn add_behind(
        &mut self,
        alloc: Global,
        read: usize,
        writes: &[RestingWrite],
    ) -> Result<(), AllocError>
        ensures own { (origin : Server) (before : List (List ℕ)) → HasRead self.old origin before → read ≡ self.old.read
            → OnOk result (HasRead self.new origin (before ++ map write_bytes (own_of origin.index writes.now))) }
        ensures counted { read ≡ self.old.read → read + length writes.now < 2 ^ 64 → OnOk result (self.new.read ≡ read + length writes.now) }
        ensures others { ¬ (read ≡ self.old.read) → self.new ≡ self.old }
    {
        if read != self.read {
            return Ok(());
        }
        for write in writes {
            self.add(alloc, write)?;
        }
        Ok(())
    }

    /// The digest of the origin's first so many Writes, where so many were read.
    pub fn at(&self, origin: ServerId, count: u32) -> Option<u64>
        ensures { (writes : List (List ℕ)) → HasRead self.now origin writes → TellsAt writes count result }
    {
        self.origins[usize::from(origin.index)].at(count as usize)
    }

    /// How many Writes were read of each origin, as many as a log can hold at the most, and of each the digest of so many.
    pub fn held(&self) -> Held
        ensures counts { (origin : Server) (writes : List (List ℕ)) → HasRead self.now origin writes → slice_index result.vector origin.index ≡ min (length writes) MAX_WRITES }
        ensures digests { (origin : Server) (writes : List (List ℕ)) → HasRead self.now origin writes
            → slice_index result.digests origin.index ≡ digest_at writes (slice_index result.vector origin.index) }
    {
        let mut counts = [0; SERVERS];
        let mut each = [NO_WRITES; SERVERS];
        for index in 0..SERVERS {
            let count = self.origins[index].len().min(MAX_WRITES as usize);
            counts[index] = count as u32;
            each[index] = self.origins[index].at(count).unwrap_or(NO_WRITES);
        }
        Held {
            vector: Vector::from_counts(counts).unwrap_or(Vector::zero()),
            digests: Digests::new(each),
        }
    }

    /// Whether other Writes of the origin were read than who told this holds. Where fewer were read, that isn't known.
    pub fn differs(&self, told: &Held, origin: ServerId) -> bool
        ensures { (writes : List (List ℕ)) → HasRead self.now origin writes → IsTrue result ↔ DifferFrom writes told.now origin }
    {
        let index = usize::from(origin.index);
        let (count, digest) = (told.vector.counts()[index], told.digests.each()[index]);
        self.origins[index].differs(count as usize, digest)
    }

    /// An origin of which other Writes were read than who told this holds: this one, if it is such a one, and else the first.
    pub fn difference(&self, told: &Held, sooner: ServerId) -> Option<ServerId>
        ensures found { IfSome result (λ origin. (writes : List (List ℕ)) → HasRead self.now origin writes → DifferFrom writes told.now origin) }
        ensures sooner { (writes : List (List ℕ)) → HasRead self.now sooner writes → DifferFrom writes told.now sooner → result ≡ Some sooner }
        ensures none { result ≡ None → (origin : Server) (writes : List (List ℕ)) → HasRead self.now origin writes → ¬ DifferFrom writes told.now origin }
    {
        if self.differs(told, sooner) {
            return Some(sooner);
        }
        for index in 0..SERVERS as u8 {
            if let Some(origin) = ServerId::new(index)
                && self.differs(told, origin)
            {
                return Some(origin);
            }
        }
        None
    }

    /// The digests asked for, in the order of their counts, up to the first count of which fewer Writes were read.
    pub fn digested(&self, inquiry: &Inquiry) -> ArrayVec<u64, DIGESTS_AT_ONCE>
        ensures { (writes : List (List ℕ)) → HasRead self.now inquiry.now.origin writes → TellsUpTo writes inquiry.now.counts.items result.items }
    {
        let mut digests = ArrayVec::new();
        for count in inquiry.counts.as_slice() {
            let Some(digest) = self.at(inquiry.origin, *count) else {
                break;
            };
            digests.push(digest);
        }
        digests
    }

    /// Where the first Write of the origin that differs is, by the digests that came of these counts of the span; nothing where not all came.
    pub fn narrowed(
        &self,
        origin: ServerId,
        span: DigestSpan,
        counts: &[u32],
        told: &[u64],
    ) -> Option<DigestSpan>
        ensures told { IsSome result ↔ (length told.now ≡ length counts.now) }
        ensures within { All (λ count. (span.low < count) × (count < span.high)) counts.now → IfSome result (λ narrow. (span.low ≤ narrow.low) × (narrow.high ≤ span.high)) }
        ensures narrows { (writes : List (List ℕ)) → HasRead self.now origin writes → IfSome result (λ narrow. Narrows writes counts.now told.now span narrow) }
    {
        if told.len() != counts.len() {
            return None;
        }
        let mut narrow = span;
        for place in 0..counts.len() {
            let count = counts[place];
            if self.at(origin, count) != Some(told[place]) {
                narrow.high = count;
                break;
            }
            narrow.low = count;
        }
        Some(narrow)
    }
}
