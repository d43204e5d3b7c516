ghost use Rattle.std.specs.Prelude.{◌≡◌, ◌≤◌, ◌<◌, ◌^◌, ℕ, List, [], None, Err, IfOk, MatchResult, drop, length, option_copied, take};
ghost use Rattle.bayou_base.specs.Vector.{Dominates};
ghost use Rattle.bayou_base.specs.declared.limits.TheConstants.{MAX_WRITES};
ghost use Rattle.bayou_lang.specs.declared.write.Write.{Write};
ghost use Rattle.bayou_lang.specs.Writes.{count_of, lacking_of};
ghost use Rattle.bayou_log.specs.Listing.{listing_of};
ghost use Rattle.bayou_node.specs.Answers.{BySome, InSome, IsWritten, Pays, TakesAllAtNode};
ghost use Rattle.bayou_node.specs.Books.{AreNewDesks, IsBlankOf, begun_of};
ghost use Rattle.bayou_node.specs.Settles.{IsNodeSettled};
ghost use Rattle.bayou_server.specs.Lookups.{AsksAfter, Lists};
ghost use Rattle.bayou_server.specs.Reads.{Reads};
ghost use Rattle.bayou_server.specs.Reopens.{ReopensSome};
ghost use Rattle.bayou_server.specs.Takes.{Takes};
ghost use Rattle.bayou_server.specs.Writes.{Writes};

use crate::desk::{Desk, Desks};
use crate::held::Held;
use crate::node_settled::{DeskMissing, NodeSettled, NotMade};
use bayou_base::{Key, Prefix, Seen, ServerId, Tag, Vector, Wid};
use bayou_device::Device;
use bayou_lang::{RestingProgram, RestingWrite};
use bayou_log::Listed;
use bayou_server::{
    Behind, ReopenFault, Reopened, Server, TakeFault, Told, Took, TookAll, WriteFault, Written,
};
use bayou_wire::Page;
use std::alloc::{AllocError, Global};
use std::collections::VecDeque;
use std::marker::Model;
use std::sync::atomic::{AtomicUsize, Ordering};
use std::sync::ledger::Blank;
use std::sync::{Mutex, MutexGuard, Wait};

/// A server behind its lock, which threads share. Each call that takes the lock may wait for it, and holds it for itself alone; those that take it
/// several times, or never, say so.
#[derive(Drop)]
pub struct Node<D, L: Desks> {
    held: Mutex<Held<D, L>>,
    // Whose turn at the lock is next. Who frees the lock and wants it again waits here for who was woken, so that nobody is passed twice.
    turn: Mutex<()>,
    // How many callers wait for the lock.
    waiting: AtomicUsize,
    id: ServerId,
}

impl<D, L: Desks> Model for Node<D, L> {
    ghost use Rattle.std.specs.Prelude.{◌≡◌};
    ghost use Rattle.bayou_base.specs.declared.server.ServerId.{ServerId as Name};

    ghost Value = { Name };

    ghost view = { λ n. n.id };

    ghost invariant = { λ n. n.id.index ≡ L.begun.server };
}

impl<D: Device, L: Desks> Node<D, L> {
    /// The server behind a lock, and so many desks.
    pub fn new(
        alloc: Global,
        blank: Blank,
        server: Server<D>,
        desks: u32,
    ) -> Result<(Self, Vec<Desk<L>>), NotMade<D>>
        requires blank { IsBlankOf blank L.name L.parts desks }
        requires whose { begun_of server.core ≡ L.begun }
        ensures made { MatchResult result
            (λ made. (made.0.index ≡ server.core.id) × AreNewDesks desks made.1.items)
            (λ left. left.server ≡ server) }
    {
        let id = server.id();
        let (held, desks) = Held::new(alloc, blank, server, desks)?;
        Ok((
            Node {
                held: Mutex::new(held),
                turn: Mutex::new(()),
                waiting: AtomicUsize::new(0),
                id,
            },
            desks,
        ))
    }

    // The value of the lock, once it is free and this caller's turn is next. Whoever takes Writes meanwhile sees that somebody waits.
    fn enter<R: Wait>(&self, rt: &R) -> MutexGuard<'_, Held<D, L>> {
        self.waiting.fetch_add(1, Ordering::Relaxed);
        let turn = self.turn.lock(rt);
        let held = self.held.lock(rt);
        drop(turn);
        self.waiting.fetch_sub(1, Ordering::Relaxed);
        held
    }

    /// Which server it has. This takes no lock.
    pub fn id(&self) -> ServerId
        ensures { (result ≡ self.now) × (result.index ≡ L.begun.server) }
    {
        self.id
    }

    /// As [`Held::read`].
    pub fn read<R: Wait>(&self, rt: &R, need: &Vector, key: &Key) -> Result<Seen, Behind>
        ensures reads { InSome L.begun (λ core. Reads core need.now key.now result) }
        ensures covered { IfOk result (λ seen. Dominates seen.vector need.now) }
    {
        self.enter(rt).read(need, key)
    }

    /// As [`Held::list`].
    pub fn list<R: Wait>(
        &self,
        rt: &R,
        need: &Vector,
        prefix: &Prefix,
        after: Option<&Key>,
        most: u16,
    ) -> Result<Page, Behind>
        ensures lists { InSome L.begun (λ core. Lists core need.now prefix.now (option_copied after.entry) most result) }
        ensures covered { IfOk result (λ page. Dominates page.vector need.now) }
    {
        self.enter(rt).list(need, prefix, after, most)
    }

    /// As [`Held::became`].
    pub fn became<R: Wait>(&self, rt: &R, need: &Vector, wid: Wid) -> Result<Told, Behind>
        ensures tells { InSome L.begun (λ core. AsksAfter core need.now wid result) }
        ensures covered { IfOk result (λ told. Dominates told.vector need.now) }
    {
        self.enter(rt).became(need, wid)
    }

    /// As [`Held::write`].
    pub fn write<R: Wait>(
        &self,
        rt: &R,
        alloc: Global,
        desk: &mut Desk<L>,
        tag: Tag,
        need: &Vector,
        program: &RestingProgram,
    ) -> Result<Written, WriteFault>
        ensures writes { BySome L.begun (λ old new. Writes old tag need.now program.now result new) }
        ensures written { IfOk result (IsWritten L.begun.server need.now desk.old) }
        ensures pays { Pays desk.old result desk.new }
    {
        self.enter(rt).write(alloc, desk, tag, need, program)
    }

    /// What its server holds, at some time during the call.
    pub fn offer<R: Wait>(&self, rt: &R) -> Vector
        ensures { InSome L.begun (λ core. result ≡ count_of core.held) }
    {
        self.enter(rt).vector()
    }

    /// As [`Held::lacking`].
    pub fn lacking<R: Wait>(
        &self,
        rt: &R,
        alloc: Global,
        counts: &Vector,
        max: usize,
    ) -> Result<Vec<RestingWrite>, AllocError>
        ensures value { InSome L.begun (λ core. IfOk result (λ writes. writes.items ≡ take max (lacking_of counts.now core.held))) }
        ensures few { IfOk result (λ writes. length writes.items ≤ max) }
    {
        self.enter(rt).lacking(alloc, counts, max)
    }

    /// As [`Held::take`].
    pub fn take<R: Wait>(
        &self,
        rt: &R,
        alloc: Global,
        write: RestingWrite,
    ) -> Result<Took, TakeFault>
        ensures { BySome L.begun (λ old new. Takes old write result new) }
    {
        self.enter(rt).take(alloc, write)
    }

    /// As [`Held::take_meanwhile`], up to the last: wherever somebody waits for the lock it is free between one piece and the next.
    pub fn take_all<R: Wait>(&self, rt: &R, alloc: Global, writes: Vec<RestingWrite>) -> TookAll
        requires few { length writes.items < 2 ^ 32 }
        ensures { (left : List Write) × TakesAllAtNode L.begun writes.items left result × (result.refused ≡ None → left ≡ []) }
    {
        let mut told = TookAll {
            taken: 0,
            had: 0,
            refused: None,
        };
        let mut writes = VecDeque::from(writes);
        while !writes.is_empty() && told.refused.is_none() {
            let more = self
                .enter(rt)
                .take_meanwhile(alloc, &mut writes, &self.waiting);
            told.taken += more.taken;
            told.had += more.had;
            told.refused = more.refused;
        }
        told
    }

    /// As [`Held::reopen`].
    pub fn reopen<R: Wait>(&self, rt: &R, alloc: Global) -> Result<Reopened, ReopenFault>
        ensures { BySome L.begun (λ old new. ReopensSome old result new) }
    {
        self.enter(rt).reopen(alloc)
    }

    /// As [`Held::listing`].
    pub fn listing<R: Wait>(&self, rt: &R, alloc: Global) -> Result<Vec<Listed>, AllocError>
        ensures { InSome L.begun (λ core. IfOk result (λ list. list.items ≡ listing_of core.held)) }
    {
        self.enter(rt).listing(alloc)
    }

    /// As [`Held::dump`].
    pub fn dump<R: Wait>(&self, rt: &R, alloc: Global) -> Result<Vec<RestingWrite>, AllocError>
        ensures value { InSome L.begun (λ core. IfOk result (λ writes. writes.items ≡ core.held)) }
        ensures few { IfOk result (λ writes. length writes.items ≤ MAX_WRITES) }
    {
        self.enter(rt).dump(alloc)
    }

    /// As [`Held::dump_part`].
    pub fn dump_part<R: Wait>(
        &self,
        rt: &R,
        alloc: Global,
        place: usize,
        most: usize,
    ) -> Result<Vec<RestingWrite>, AllocError>
        ensures value { InSome L.begun (λ core. IfOk result (λ writes. writes.items ≡ take most (drop place core.held))) }
        ensures few { IfOk result (λ writes. length writes.items ≤ most) }
    {
        self.enter(rt).dump_part(alloc, place, most)
    }

    /// What the books come to, where all desks are back; the server is dropped, and its device with it. Else node and desks come back.
    pub fn settle(self, desks: Vec<Desk<L>>) -> Result<NodeSettled, DeskMissing<Self, L>>
        ensures { MatchResult result
            (IsNodeSettled L.begun L.parts desks.items)
            (λ left. (length desks.items < L.parts) × (left.node ≡ self) × (left.desks.items ≡ desks.items)) }
    {
        let Node { held, id, .. } = self;
        match held.into_inner().settle(desks) {
            Ok(settled) => Ok(settled),
            Err(left) => {
                let DeskMissing { node, desks } = left;
                Err(DeskMissing {
                    node: Node {
                        held: Mutex::new(node),
                        turn: Mutex::new(()),
                        waiting: AtomicUsize::new(0),
                        id,
                    },
                    desks,
                })
            }
        }
    }
}
