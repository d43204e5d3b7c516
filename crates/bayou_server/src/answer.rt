ghost use Rattle.std.specs.Prelude.{◌≡◌, IfOk, MatchOption, None, Some};
ghost use Rattle.bayou_lang.specs.Writes.{count_of};
ghost use Rattle.bayou_server.specs.Lookups.{became_of as became, fate_of, placed_of as placed};

use crate::fault::TakeFault;
use crate::holding::Holding;
use crate::server::copies;
use bayou_base::{Accepted, Tag, Vector, Wid};
use bayou_lang::{Outcome, RestingWrite};
use bayou_log::Listed;
use bayou_wire::{Became, Fate, Placed};
use std::alloc::{AllocError, Global};
use std::marker::Model;

/// A program that has its Write: what that was given as it was made.
#[derive(Clone, Copy, Debug, PartialEq, Eq)]
pub enum Written {
    /// The Write was made now, and is held after the others.
    New(Accepted),
    /// It was made before, under the same tag, and is held.
    Known(Accepted),
}

/// What a server answers to whoever asks what became of a Write.
#[derive(Clone, Copy, Debug, PartialEq, Eq)]
pub struct Told {
    /// As what the Write is listed, if it is held.
    pub listed: Option<Listed>,
    /// What the server held as it answered.
    pub vector: Vector,
}

fn became_of(outcome: Outcome) -> Became
    ensures { result ≡ became outcome }
{
    match outcome {
        Outcome::Updated => Became::Updated,
        Outcome::Merged(number) => Became::Merged(number.saturating_add(1)),
        Outcome::Nothing => Became::Nothing,
    }
}

fn placed_of(listed: Option<Listed>) -> Option<Placed>
    ensures { result ≡ placed listed }
{
    let Some(listed) = listed else {
        return None;
    };
    Some(Placed {
        became: became_of(listed.outcome),
        clock: listed.stamp.clock,
    })
}

impl Told {
    /// What is said of it over a channel. No program has so many alternatives that one isn't told by its number.
    pub fn fate(&self) -> Fate
        ensures { result ≡ fate_of self.now }
    {
        Fate {
            vector: self.vector,
            placed: placed_of(self.listed),
        }
    }
}

/// What a server that was given a Write did with it.
#[derive(Clone, Copy, Debug, PartialEq, Eq)]
pub enum Took {
    /// It holds the Write now, after the others.
    New,
    /// It held the Write already.
    Had,
}

/// A Write that a server was given and refused, by its name, and why.
#[derive(Clone, Copy, Debug, PartialEq, Eq)]
pub struct RefusedWrite {
    pub wid: Wid,
    pub fault: TakeFault,
}

/// What a server did with Writes that it was given, one after another.
#[derive(Clone, Copy, Debug, PartialEq, Eq)]
pub struct TookAll {
    /// How many of them were new.
    pub taken: u32,
    /// How many it held already.
    pub had: u32,
    /// The next one, where it was refused.
    pub refused: Option<RefusedWrite>,
}

/// A server that is up again.
#[derive(Clone, Copy, Debug, PartialEq, Eq)]
pub struct Reopened {
    /// The Write that was in doubt, where its journal had it: the server's own, or one that it was given.
    pub adopted: Option<Wid>,
}

/// What a server held as it was stopped.
#[derive(Drop)]
pub struct LastHeld {
    writes: Vec<RestingWrite>,
    vector: Vector,
    tags: Vec<Option<Tag>>,
    doubt: Option<RestingWrite>,
    doubt_tag: Option<Tag>,
}

impl Model for LastHeld {
    ghost use Rattle.std.specs.Prelude.{◌≡◌};
    ghost use Rattle.bayou_lang.specs.Writes.{count_of};
    ghost use Rattle.bayou_server.specs.Server.{Holds};

    ghost Value = { Holds };

    ghost view = { λ h. record { held = h.writes.items; tags = h.tags.items; doubt = h.doubt; doubt_tag = h.doubt_tag } };

    ghost invariant = { λ h. h.vector ≡ count_of h.writes.items };
}

impl LastHeld {
    // What the server holds: no database, and nothing that takes Writes back.
    pub(crate) fn new(holding: Holding) -> Self
        ensures held { result.held ≡ holding.log.receipts }
        ensures tags { result.tags ≡ holding.tags.tags }
        ensures doubt { result.doubt ≡ holding.doubt }
        ensures doubt_tag { result.doubt_tag ≡ holding.tags.coming }
    {
        let Holding {
            log,
            tags,
            doubt,
            taking: _,
            together: _,
        } = holding;
        LastHeld {
            vector: log.vector(),
            writes: log.into_receipts(),
            doubt,
            doubt_tag: tags.coming(),
            tags: tags.into_tags(),
        }
    }

    /// The Writes, in order of receipt.
    pub fn receipts(&self) -> &[RestingWrite]
        ensures { result.now ≡ self.now.held }
    {
        self.writes.as_slice()
    }

    /// For each server the number of its Writes.
    pub fn vector(&self) -> Vector
        ensures { result ≡ count_of self.now.held }
    {
        self.vector
    }

    /// The tag of each Write, or none, in order of receipt.
    pub fn tags(&self) -> &[Option<Tag>]
        ensures { result.now ≡ self.now.tags }
    {
        self.tags.as_slice()
    }

    /// The Write in doubt, where the server was down.
    pub fn doubt(&self) -> Option<&RestingWrite>
        ensures { MatchOption result (self.now.doubt ≡ None) (λ write. self.now.doubt ≡ Some write.now) }
    {
        self.doubt.as_ref()
    }

    /// The tag of the Write in doubt, if it has one.
    pub fn doubt_tag(&self) -> Option<Tag>
        ensures { result ≡ self.now.doubt_tag }
    {
        self.doubt_tag
    }

    /// Copies of the Writes, in order of receipt.
    pub fn dump(&self, alloc: Global) -> Result<Vec<RestingWrite>, AllocError>
        ensures { IfOk result (λ writes. writes.items ≡ self.now.held) }
    {
        copies(alloc, &self.writes)
    }
}

/// A server that was stopped.
#[derive(Drop)]
pub struct Stopped<D> {
    pub device: D,
    /// What it held.
    pub last: LastHeld,
}
