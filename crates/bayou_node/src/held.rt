ghost use Rattle.std.specs.Prelude.{◌≡◌, ◌≤◌, ◌<◌, ◌+◌, ◌^◌, ◌⊎◌, ℕ, [], None, Err, IfOk, MatchResult, drop, length, option_copied, slice_index, sum, take};
ghost use Rattle.bayou_base.specs.declared.limits.TheConstants.{MAX_WRITES};
ghost use Rattle.bayou_lang.specs.Writes.{count_of, lacking_of};
ghost use Rattle.bayou_log.specs.Listing.{listing_of};
ghost use Rattle.bayou_node.specs.Answers.{IsWritten, Pays};
ghost use Rattle.bayou_node.specs.Books.{AreNewDesks, IsBlankOf, IsExact, StillHolds, begun_of, opened};
ghost use Rattle.bayou_node.specs.Settles.{IsSettled};
ghost use Rattle.bayou_server.specs.Lookups.{AsksAfter, Lists};
ghost use Rattle.bayou_server.specs.Reads.{Reads};
ghost use Rattle.bayou_server.specs.Reopens.{ReopensAll, own_adopted};
ghost use Rattle.bayou_server.specs.Server.{own_count};
ghost use Rattle.bayou_server.specs.Several.{StoresAll, TakesHeld, left_behind};
ghost use Rattle.bayou_server.specs.Stored.{ReopensJournal, StoresTaken, StoresWrite};
ghost use Rattle.bayou_server.specs.Takes.{Takes};
ghost use Rattle.bayou_server.specs.TakesAll.{TakesAll};
ghost use Rattle.bayou_server.specs.Writes.{Writes, own_made};

use crate::desk::{Desk, Desks};
use crate::node_settled::{DeskMissing, NodeSettled, NotMade};
use bayou_base::{Key, Prefix, Seen, Tag, Vector, Wid};
use bayou_device::Device;
use bayou_lang::{RestingProgram, RestingWrite};
use bayou_log::Listed;
use bayou_server::{
    Behind, ReopenFault, Reopened, Server, TakeFault, Told, Took, TookAll, WriteFault, Written,
};
use bayou_wire::Page;
use std::alloc::{AllocError, Global};
use std::collections::VecDeque;
use std::marker::Model;
use std::sync::atomic::AtomicUsize;
use std::sync::ledger::{Blank, Book, Share};

/// The value of a node's lock: a server with its books.
#[derive(Drop)]
pub struct Held<D, L: Desks> {
    server: Server<D>,
    // How many desks were made.
    desks: usize,
    // How many Writes the server had made itself.
    stored: u32,
    adopted: u32,
    accepted: Book<L>,
    // No part of the ledger, to which those of the desks are put in the end.
    rest: Share<L>,
}

impl<D, L: Desks> Model for Held<D, L> {
    ghost use Rattle.std.specs.Prelude.{◌≡◌};
    ghost use Rattle.bayou_node.specs.Books.{Booked, IsExact};

    ghost Value = { Booked D };

    ghost view = { λ h. record { server = h.server; stored = h.stored; accepted = h.accepted.total; adopted = h.adopted } };

    ghost invariant = { λ h. IsExact L.begun (record { server = h.server; stored = h.stored; accepted = h.accepted.total; adopted = h.adopted })
        × (h.desks ≡ L.parts) × (h.rest.parts ≡ 0) × (h.rest.amount ≡ 0) };
}

// Shares out all parts, one to each desk. What is left is no part.
fn share_out<L: Desks>(
    alloc: Global,
    all: Share<L>,
    desks: u32,
) -> Result<(Share<L>, Vec<Desk<L>>), AllocError>
    requires one_each { all.parts ≡ desks }
    requires none { all.amount ≡ 0 }
    ensures rest { IfOk result (λ made. (made.0.parts ≡ 0) × (made.0.amount ≡ 0)) }
    ensures desks { IfOk result (λ made. AreNewDesks desks made.1.items) }
{
    let mut all = all;
    let mut made = Vec::with_capacity(alloc, desks as usize)?;
    for _ in 0..desks {
        made.push_reserved(Desk {
            share: all.split_off(1, 0),
        });
    }
    Ok((all, made))
}

// Puts the parts of all desks together.
fn gather<L: Desks>(rest: Share<L>, desks: Vec<Desk<L>>) -> Share<L>
    requires { (rest.parts ≡ 0) × (rest.amount ≡ 0) }
    ensures parts { result.parts ≡ length desks.items }
    ensures amount { result.amount ≡ sum desks.items }
    ensures within { result.parts ≤ L.parts }
{
    let mut all = rest;
    for desk in desks {
        let Desk { share } = desk;
        all.merge(share);
    }
    all
}

// How many Writes the server made itself.
fn own_writes<D: Device>(server: &Server<D>) -> u32
    ensures { result ≡ own_count server.now.core }
{
    server.vector().get(server.id())
}

impl<D: Device, L: Desks> Held<D, L> {
    /// The server with books in which nothing stands yet, and so many desks.
    pub fn new(
        alloc: Global,
        blank: Blank,
        server: Server<D>,
        desks: u32,
    ) -> Result<(Self, Vec<Desk<L>>), NotMade<D>>
        requires blank { IsBlankOf blank L.name L.parts desks }
        requires whose { begun_of server.core ≡ L.begun }
        ensures made { MatchResult result
            (λ made. (made.0 ≡ opened server) × AreNewDesks desks made.1.items)
            (λ left. left.server ≡ server) }
    {
        let (accepted, all) = blank.open::<L>();
        let Ok((rest, made)) = share_out(alloc, all, desks) else {
            return Err(NotMade { server });
        };
        let held = Held {
            stored: own_writes(&server),
            desks: made.len(),
            server,
            adopted: 0,
            accepted,
            rest,
        };
        Ok((held, made))
    }

    /// As [`Server::read`].
    pub fn read(&self, need: &Vector, key: &Key) -> Result<Seen, Behind>
        ensures reads { Reads self.now.server.core need.now key.now result }
        ensures exact { IsExact L.begun self.now }
    {
        self.server.read(need, key)
    }

    /// As [`Server::list`].
    pub fn list(
        &self,
        need: &Vector,
        prefix: &Prefix,
        after: Option<&Key>,
        most: u16,
    ) -> Result<Page, Behind>
        ensures lists { Lists self.now.server.core need.now prefix.now (option_copied after.entry) most result }
        ensures exact { IsExact L.begun self.now }
    {
        self.server.list(need, prefix, after, most)
    }

    /// As [`Server::became`].
    pub fn became(&self, need: &Vector, wid: Wid) -> Result<Told, Behind>
        ensures tells { AsksAfter self.now.server.core need.now wid result }
        ensures exact { IsExact L.begun self.now }
    {
        self.server.became(need, wid)
    }

    /// As [`Server::write`]. The desk is paid where, and only where, a new Write is made of the program.
    pub fn write(
        &mut self,
        alloc: Global,
        desk: &mut Desk<L>,
        tag: Tag,
        need: &Vector,
        program: &RestingProgram,
    ) -> Result<Written, WriteFault>
        ensures writes { Writes self.old.server.core tag need.now program.now result self.new.server.core }
        ensures stores { StoresWrite D.Device self.old.server result self.new.server }
        ensures pays { Pays desk.old result desk.new }
        ensures counts { self.new.accepted ≡ self.old.accepted + own_made result }
        ensures written { IfOk result (IsWritten L.begun.server need.now desk.old) }
        ensures others { (self.new.stored ≡ self.old.stored) × (self.new.adopted ≡ self.old.adopted) }
        ensures keeps { StillHolds self.old.server.core self.new.server.core }
        ensures exact { IsExact L.begun self.old × IsExact L.begun self.new }
    {
        self.accepted.audit(&mut desk.share);
        let written = self.server.write(alloc, tag, need, program)?;
        let Written::New(_) = written else {
            return Ok(written);
        };
        self.accepted.add(&mut desk.share, 1);
        Ok(written)
    }

    /// As [`Server::take`].
    pub fn take(&mut self, alloc: Global, write: RestingWrite) -> Result<Took, TakeFault>
        ensures takes { Takes self.old.server.core write result self.new.server.core }
        ensures stores { StoresTaken D.Device self.old.server result self.new.server }
        ensures others { (self.new.stored ≡ self.old.stored) × (self.new.accepted ≡ self.old.accepted) × (self.new.adopted ≡ self.old.adopted) }
        ensures keeps { StillHolds self.old.server.core self.new.server.core }
        ensures exact { IsExact L.begun self.old × IsExact L.begun self.new }
    {
        self.server.take(alloc, write)
    }

    /// As [`Server::take_meanwhile`].
    pub fn take_meanwhile(
        &mut self,
        alloc: Global,
        writes: &mut VecDeque<RestingWrite>,
        waiting: &AtomicUsize,
    ) -> TookAll
        requires few { length writes.old.items < 2 ^ 32 }
        ensures takes { TakesAll TakesHeld self.old.server.core writes.old.items (left_behind result.refused self.new.server.taking writes.new.items) result self.new.server.core }
        ensures stores { StoresAll D.Device self.old.server result.refused self.new.server }
        ensures some { result.refused ≡ None → (writes.new.items ≡ []) ⊎ (0 < result.taken + result.had) }
        ensures others { (self.new.stored ≡ self.old.stored) × (self.new.accepted ≡ self.old.accepted) × (self.new.adopted ≡ self.old.adopted) }
        ensures keeps { StillHolds self.old.server.core self.new.server.core }
        ensures exact { IsExact L.begun self.old × IsExact L.begun self.new }
    {
        self.server.take_meanwhile(alloc, writes, waiting)
    }

    /// As [`Server::reopen`]. A Write of the server's own that is adopted is counted: of several none is its own.
    pub fn reopen(&mut self, alloc: Global) -> Result<Reopened, ReopenFault>
        ensures reopens { ReopensAll self.old.server.core self.old.server.taking result self.new.server.core }
        ensures opens { ReopensJournal D.Device self.old.server result self.new.server }
        ensures counts { MatchResult result
            (λ reopened. self.new.adopted ≡ self.old.adopted + own_adopted L.begun.server reopened.adopted)
            (λ _. self.new.adopted ≡ self.old.adopted) }
        ensures others { (self.new.stored ≡ self.old.stored) × (self.new.accepted ≡ self.old.accepted) }
        ensures keeps { StillHolds self.old.server.core self.new.server.core }
        ensures exact { IsExact L.begun self.old × IsExact L.begun self.new }
    {
        let before = own_writes(&self.server);
        let reopened = self.server.reopen(alloc)?;
        self.adopted += own_writes(&self.server) - before;
        Ok(reopened)
    }

    /// As [`Server::vector`].
    pub fn vector(&self) -> Vector
        ensures value { result ≡ count_of self.now.server.core.held }
        ensures exact { IsExact L.begun self.now }
    {
        self.server.vector()
    }

    /// As [`Server::lacking`].
    pub fn lacking(
        &self,
        alloc: Global,
        counts: &Vector,
        max: usize,
    ) -> Result<Vec<RestingWrite>, AllocError>
        ensures value { IfOk result (λ writes. writes.items ≡ take max (lacking_of counts.now self.now.server.core.held)) }
        ensures exact { IsExact L.begun self.now }
    {
        self.server.lacking(alloc, counts, max)
    }

    /// As [`Server::listing`].
    pub fn listing(&self, alloc: Global) -> Result<Vec<Listed>, AllocError>
        ensures value { IfOk result (λ list. list.items ≡ listing_of self.now.server.core.held) }
        ensures exact { IsExact L.begun self.now }
    {
        self.server.listing(alloc)
    }

    /// As [`Server::dump`].
    pub fn dump(&self, alloc: Global) -> Result<Vec<RestingWrite>, AllocError>
        ensures value { IfOk result (λ writes. writes.items ≡ self.now.server.core.held) }
        ensures few { IfOk result (λ writes. length writes.items ≤ MAX_WRITES) }
        ensures exact { IsExact L.begun self.now }
    {
        // The limit, below which all that is held stays, is within its range.
        let _limit = self.server.limit();
        self.server.dump(alloc)
    }

    /// As [`Server::dump_part`].
    pub fn dump_part(
        &self,
        alloc: Global,
        place: usize,
        most: usize,
    ) -> Result<Vec<RestingWrite>, AllocError>
        ensures value { IfOk result (λ writes. writes.items ≡ take most (drop place self.now.server.core.held)) }
        ensures exact { IsExact L.begun self.now }
    {
        self.server.dump_part(alloc, place, most)
    }

    /// What the books come to, where all desks are back. Else books and desks come back.
    pub fn settle(self, desks: Vec<Desk<L>>) -> Result<NodeSettled, DeskMissing<Self, L>>
        ensures settled { MatchResult result
            (λ settled. IsSettled self L.parts desks.items settled)
            (λ left. (length desks.items < L.parts) × (left.node ≡ self) × (left.desks.items ≡ desks.items)) }
        ensures exact { IsExact L.begun self }
    {
        if desks.len() < self.desks {
            return Err(DeskMissing { node: self, desks });
        }
        let vector = self.vector();
        let own = own_writes(&self.server);
        let Held {
            server: _,
            desks: _,
            stored,
            adopted,
            mut accepted,
            rest,
        } = self;
        let mut all = gather(rest, desks);
        accepted.audit(&mut all);
        Ok(NodeSettled {
            accepted: own - stored - adopted,
            adopted,
            vector,
        })
    }
}
