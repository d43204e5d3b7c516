//! What a session heard of, by vectors.
ghost use Rattle.std.specs.Prelude.{◌≡◌, ◌⊎◌, List, ℕ, Some, sum, true};
ghost use Rattle.bayou_base.specs.Vector.{Covers};
ghost use Rattle.bayou_base.specs.declared.entry.What.TheVariants as whats;
ghost use Rattle.bayou_lang.specs.declared.write.Write.{Write};
ghost use Rattle.bayou_judge.specs.History.{dump_of};
ghost use Rattle.bayou_judge.specs.Inner.Index.{IsUpTo};
ghost use Rattle.bayou_base.specs.declared.stamp.Stamp.{Stamp};
ghost use Rattle.bayou_judge.specs.Inner.Needs.{is_first, IsNeeded, IsServed, Tells};
ghost use Rattle.bayou_judge.specs.Inner.Known.{need_for};
ghost use Rattle.bayou_judge.specs.declared.breach.Guarantee.{Guarantee};

use crate::breach::Guarantee;
use crate::evidence::Evidence;
use crate::index::later_of;
use bayou_base::{ServerId, Stamp, Vector, What, Wid};

/// The Writes that a session heard of: for each server the greatest of their sequence numbers, and their last stamp.
#[derive(Clone, Copy)]
pub(crate) struct Need {
    pub(crate) counts: Vector,
    pub(crate) last: Option<Stamp>,
}

/// The later of two stamps, where there is one.
fn last_of(last: Option<Stamp>, other: Option<Stamp>) -> Option<Stamp>
    ensures { (stamp : Stamp) → (IsUpTo last stamp ⊎ IsUpTo other stamp) → IsUpTo result stamp }
{
    match other {
        Some(other) => Some(later_of(last, other)),
        None => last,
    }
}

impl Need {
    /// The need of who heard of nothing.
    pub(crate) fn none() -> Self
        ensures { (write : Write) → ¬ IsNeeded result write }
    {
        Need {
            counts: Vector::zero(),
            last: None,
        }
    }

    /// The need of one Write.
    fn of_write(wid: Wid, stamp: Stamp) -> Self
        ensures counted { Covers result.counts wid.origin.index wid.seq }
        ensures last { result.last ≡ Some stamp }
    {
        let mut counts = Vector::zero();
        counts.raise(wid);
        Need {
            counts,
            last: Some(stamp),
        }
    }

    /// What is needed by either.
    pub(crate) fn join(&self, other: &Need) -> Need
        ensures { (write : Write) → (IsNeeded self.now write ⊎ IsNeeded other.now write) → IsNeeded result write }
    {
        Need {
            counts: self.counts.join(&other.counts),
            last: last_of(self.last, other.last),
        }
    }
}

/// How many Writes the vector counts.
pub(crate) fn size_of(vector: &Vector) -> usize
    ensures { result ≡ sum vector.now }
{
    let mut size = 0;
    for count in vector.counts() {
        size += *count as usize;
    }
    size
}

/// What a session read and what it wrote.
#[derive(Clone, Copy)]
pub(crate) struct Needs {
    pub(crate) read: Need,
    pub(crate) wrote: Need,
}

impl Needs {
    /// Those of a session that neither read nor wrote.
    pub(crate) fn none() -> Self
        ensures { (guarantee : Guarantee) (write : Write) → ¬ IsNeeded (need_for result guarantee) write }
    {
        Needs {
            read: Need::none(),
            wrote: Need::none(),
        }
    }

    /// That of which the guarantee speaks as the earlier.
    pub(crate) fn of(&self, guarantee: Guarantee) -> &Need
        ensures { result.now ≡ need_for self.now guarantee }
    {
        match guarantee {
            Guarantee::MonotonicReads | Guarantee::WritesFollowReads => &self.read,
            Guarantee::ReadYourWrites | Guarantee::MonotonicWrites => &self.wrote,
        }
    }

    /// With what an operation of this kind told of.
    pub(crate) fn with(&self, what: &What, told: &Need) -> Needs
        ensures kept { (guarantee : Guarantee) (write : Write) → IsNeeded (need_for self.now guarantee) write → IsNeeded (need_for result guarantee) write }
        ensures told { (guarantee : Guarantee) (write : Write) → is_first guarantee what.now ≡ true → IsNeeded told.now write → IsNeeded (need_for result guarantee) write }
    {
        let mut needs = *self;
        match what {
            What::Read(_, _) => needs.read = self.read.join(told),
            What::Write(_, _, _) => needs.wrote = self.wrote.join(told),
            What::Refused => {}
        }
        needs
    }
}

impl<'a> Evidence<'a> {
    /// What a read tells of.
    fn need_of_read(&self, home: ServerId, vector: &Vector) -> Need
        ensures { (key : List ℕ) (write : Write) → Tells (dump_of self.now.dumps home.index) (whats.Read key vector.now) write → IsNeeded result write }
    {
        self.recall();
        match self.index(usize::from(home.index)) {
            Some(index) => Need {
                counts: *vector,
                last: index.last_of(size_of(vector)),
            },
            None => Need::none(),
        }
    }

    /// What an operation tells its session of.
    pub(crate) fn need_of(&self, home: ServerId, what: &What) -> Need
        requires served { IsServed (dump_of self.now.dumps home.index) what.now }
        ensures { (write : Write) → Tells (dump_of self.now.dumps home.index) what.now write → IsNeeded result write }
    {
        self.recall();
        match what {
            What::Read(_, vector) => self.need_of_read(home, vector),
            What::Write(wid, stamp, _) => Need::of_write(*wid, *stamp),
            What::Refused => Need::none(),
        }
    }
}
