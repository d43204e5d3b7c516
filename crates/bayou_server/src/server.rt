ghost use Rattle.std.specs.Prelude.{◌≡◌, ◌≢◌, ◌+◌, ◌<◌, ◌≤◌, ◌^◌, ◌↔◌, ◌⊎◌, ℕ, [], None, All, Contains, Err, IfErr, IfOk, IsSome, IsTrue, MatchOption, MatchResult, OnOk, drop, length, option_copied, take};
ghost use Rattle.std.specs.Borrow.{Lends, sem};
ghost use Rattle.std.specs.Vec.Iter.{into_iter_items};
ghost use Rattle.bayou_base.specs.declared.limits.TheConstants.{SERVERS, MAX_WRITES};
ghost use Rattle.bayou_journal.specs.Opening.{KeepsChains};
ghost use Rattle.bayou_lang.specs.Writes.{count_of, lacking_of};
ghost use Rattle.bayou_log.specs.Listing.{listing_of};
ghost use Rattle.bayou_server.specs.contracts.server.Server.{the_row};
ghost use Rattle.bayou_server.specs.Lookups.{AsksAfter, Lists};
ghost use Rattle.bayou_server.specs.Reads.{Reads};
ghost use Rattle.bayou_server.specs.Reopens.{ReopensAll, own_adopted};
ghost use Rattle.bayou_server.specs.Server.{IsSoundServer, holds_of, own_count, with_device};
ghost use Rattle.bayou_server.specs.Several.{StoresAll, TakesHeld, left_behind};
ghost use Rattle.bayou_server.specs.Starts.{FailsToStart, Starts, StartsOn};
ghost use Rattle.bayou_server.specs.Stored.{IsStored, OpensInCalls, ReopensJournal, StoresTaken, StoresWrite};
ghost use Rattle.bayou_server.specs.Takes.{Takes};
ghost use Rattle.bayou_server.specs.TakesAll.{TakesAll, TakesAt};
ghost use Rattle.bayou_server.specs.Writes.{Writes, own_made};
ghost use Rattle.bayou_tags.specs.Tags.{IsGreatestRun};

use crate::answer::{LastHeld, Reopened, Stopped, Told, Took, TookAll, Written};
use crate::fault::{Behind, NotStarted, ReopenFault, StartFault, TakeFault, WriteFault};
use crate::holding::Holding;
use crate::making::{accepted, answered};
use crate::reopen::has_doubt;
use crate::settling::settle_several;
use crate::start::holding_of;
use crate::storing::{Stored, store};
use crate::taking::{take_one, take_several};
use crate::together::take_meanwhile;
use arrayvec::ArrayVec;
use bayou_base::{Key, Prefix, Seen, ServerId, Tag, Vector, Wid};
use bayou_device::Device;
use bayou_journal::Journal;
use bayou_journal::laws::an_honest_device_opens_honestly;
use bayou_lang::{RestingProgram, RestingWrite};
use bayou_log::Listed;
use bayou_wire::Page;
use std::alloc::{AllocError, Global};
use std::collections::VecDeque;
use std::marker::Model;
use std::sync::atomic::AtomicUsize;
use std::vec::IntoIter;

/// One server of the store, over its device.
#[derive(Drop)]
pub struct Server<D> {
    journal: Journal<D>,
    holding: Holding,
    id: ServerId,
}

impl<D> Model for Server<D> {
    ghost use Rattle.std.specs.Prelude.{◌≡◌};
    ghost use Rattle.bayou_server.specs.Inner.Fields.{BelongTogether, core_of};
    ghost use Rattle.bayou_server.specs.Server.{ServerState};

    ghost Value = { ServerState D };

    ghost view = { λ s. record { core = core_of s.holding s.id.index; device = s.journal.device; last = s.journal.last; taking = s.holding.taking.items } };

    // None of the Writes held waits to be applied.
    ghost invariant = { λ s. BelongTogether s.journal s.holding s.id.index × (s.holding.log.waiting ≡ 0) };
}

impl<D: Device> Server<D> {
    /// Starts the server `id`, one of `count`, with the Writes that its journal on the device has; it is to hold `limit`
    /// at the most. It gives, beside the server, how many bytes were cut after the journal's entries. Device calls: those
    /// of the journal's opening alone. A refusal hands the device back.
    pub fn start(
        alloc: Global,
        id: ServerId,
        count: u8,
        limit: u32,
        device: D,
    ) -> Result<(Server<D>, usize), NotStarted<D>>
        requires known { id.index < count }
        requires count { count ≤ SERVERS }
        requires limit { limit ≤ MAX_WRITES }
        ensures starts { IfOk result (λ started. Starts id.index count limit started.0.core) }
        ensures others { IfOk result (λ started. started.0.taking ≡ []) }
        ensures opens { MatchResult result
            (λ started. StartsOn D.Device device started.0 started.1)
            (λ refused. FailsToStart D.Device id.index count limit device refused.device refused.fault) }
        ensures stored { D.is_modelled → IfOk result (λ started. IsStored D.Device started.0) }
        ensures safe { D.is_modelled → MatchResult result
            (λ started. KeepsChains (D.kept device) (D.kept started.0.device))
            (λ refused. KeepsChains (D.kept device) (D.kept refused.device)) }
        ensures calls { MatchResult result
            (λ started. OpensInCalls D.Device id.index device started.0.device)
            (λ refused. OpensInCalls D.Device id.index device refused.device) }
    {
        an_honest_device_opens_honestly::<D>();
        let (journal, opened) = match Journal::open(alloc, id, device) {
            Ok(opened) => opened,
            Err(refused) => {
                return Err(NotStarted {
                    fault: StartFault::from(refused.fault),
                    device: refused.device,
                });
            }
        };
        match holding_of(alloc, id, count, limit, &opened) {
            Err(fault) => Err(NotStarted {
                fault,
                device: journal.close(),
            }),
            Ok(holding) => {
                let server = Server {
                    journal,
                    holding,
                    id,
                };
                Ok((server, opened.dropped()))
            }
        }
    }

    /// What the key has in the database of the Writes held, and what is held; also while the server is down. It takes no
    /// memory.
    pub fn read(&self, need: &Vector, key: &Key) -> Result<Seen, Behind>
        ensures { Reads self.now.core need.now key.now result }
    {
        let vector = self.holding.log.vector();
        if vector.dominates(need) {
            let value = self.holding.log.get(key);
            Ok(Seen { value, vector })
        } else {
            Err(Behind { vector })
        }
    }

    /// The first of the rows whose keys begin so and come after this one, if there is one, in the order of keys, in the database of the Writes
    /// held: so many at the most, and as many as fit into a page. It tells whether one is left after them, and what is held; also while the
    /// server is down. It takes no memory.
    pub fn list(
        &self,
        need: &Vector,
        prefix: &Prefix,
        after: Option<&Key>,
        most: u16,
    ) -> Result<Page, Behind>
        ensures { Lists self.now.core need.now prefix.now (option_copied after.entry) most result }
    {
        let vector = self.holding.log.vector();
        if !vector.dominates(need) {
            return Err(Behind { vector });
        }
        let mut rows = ArrayVec::new();
        let most = usize::from(most);
        let more = self.holding.log.list(prefix, after, most, &mut rows);
        Ok(Page { vector, more, rows })
    }

    /// What became of the Write of this name, as [`Server::listing`] tells it, if it is held, and what is held; also while the server is down.
    /// It takes no memory, and looks at a few of the Writes, however many are held.
    pub fn became(&self, need: &Vector, wid: Wid) -> Result<Told, Behind>
        ensures { AsksAfter self.now.core need.now wid result }
    {
        let vector = self.holding.log.vector();
        if !vector.dominates(need) {
            return Err(Behind { vector });
        }
        let listed = self.holding.log.outcome_of(wid);
        Ok(Told { listed, vector })
    }

    /// Makes the program the server's next Write, stores its entry, and then holds it under the tag. Where a Write is held under it already,
    /// that is reported, also while the server is down. Neither that nor a refusal before `OutOfMemory` takes memory or calls the device: the
    /// program is copied only where a Write is to be made of it. Device calls: those of the journal's append alone.
    pub fn write(
        &mut self,
        alloc: Global,
        tag: Tag,
        need: &Vector,
        program: &RestingProgram,
    ) -> Result<Written, WriteFault>
        ensures writes { Writes self.old.core tag need.now program.now result self.new.core }
        ensures own { own_count self.new.core ≡ own_count self.old.core + own_made result }
        ensures sound { IsSoundServer self.old.core × IsSoundServer self.new.core }
        ensures others { self.new.taking ≡ self.old.taking }
        ensures stores { StoresWrite D.Device self.old result self.new }
        // A device that had the journal of the Writes held, and nothing else, has that of those held then.
        ensures stored { D.is_modelled → OnOk result (IsStored D.Device self.old → IsStored D.Device self.new) }
        ensures safe { D.is_modelled → KeepsChains (D.kept self.old.device) (D.kept self.new.device) }
        ensures calls { D.leads_to 2 self.old.device self.new.device }
    {
        if let Some(answer) = answered(&self.holding, self.id, tag, need, program) {
            return answer;
        }
        let program = program.copy(alloc)?;
        let write = self.holding.log.next_write(self.id, program);
        let accepted = accepted(&write);
        let stored = store(
            alloc,
            &mut self.journal,
            &mut self.holding,
            self.id,
            Some(tag),
            write,
        );
        self.holding.log.catch_up();
        match stored? {
            Stored::Held => Ok(Written::New(accepted)),
            Stored::InDoubt => Err(WriteFault::Journal),
        }
    }

    /// Takes a Write that another server accepted (anti-entropy, Petersen et al. 1997): stores its entry, and then holds it.
    /// One that is held already is answered also while the server is down, and neither that nor a refusal before
    /// `OutOfMemory` takes memory or calls the device. Device calls: those of the journal's append alone.
    pub fn take(&mut self, alloc: Global, write: RestingWrite) -> Result<Took, TakeFault>
        ensures takes { Takes self.old.core write result self.new.core }
        ensures own { own_count self.new.core ≡ own_count self.old.core }
        ensures sound { IsSoundServer self.old.core × IsSoundServer self.new.core }
        ensures others { self.new.taking ≡ self.old.taking }
        ensures stores { StoresTaken D.Device self.old result self.new }
        ensures stored { D.is_modelled → OnOk result (IsStored D.Device self.old → IsStored D.Device self.new) }
        ensures safe { D.is_modelled → KeepsChains (D.kept self.old.device) (D.kept self.new.device) }
        ensures calls { D.leads_to 2 self.old.device self.new.device }
    {
        let answer = take_one(alloc, &mut self.journal, &mut self.holding, self.id, write);
        self.holding.log.catch_up();
        answer
    }

    /// Takes the next of the Writes, as [`Server::take`] does, one after another: at most so many, up to one that is refused. They are
    /// applied together, once, so that many that come late cost as much as one that does.
    pub fn take_next(
        &mut self,
        alloc: Global,
        writes: &mut IntoIter<RestingWrite>,
        most: u32,
    ) -> TookAll
        ensures takes { TakesAll (TakesAt D.Device) self.old (into_iter_items writes.old) (into_iter_items writes.new) result self.new }
        ensures whole { result.refused ≡ None → (into_iter_items writes.new ≡ []) ⊎ (result.taken + result.had ≡ most) }
    {
        let told = take_several(
            alloc,
            &mut self.journal,
            &mut self.holding,
            self.id,
            writes,
            most,
        );
        self.holding.log.catch_up();
        told
    }

    /// Takes the Writes, as [`Server::take`] does, one after another, up to one that is refused: but those that come one after the other are stored as
    /// one piece of the journal, no longer than its longest entry, and synced together. Where `waiting` counts somebody, no more than one piece is taken,
    /// so that whoever waits for the server waits for one sync; but of Writes that come late, as many as about a thirty-second of those that are applied
    /// anew after them. No clause can tell when somebody waits. Where a device call fails, all Writes of the piece are in doubt, of which the first is
    /// the one refused.
    pub fn take_meanwhile(
        &mut self,
        alloc: Global,
        writes: &mut VecDeque<RestingWrite>,
        waiting: &AtomicUsize,
    ) -> TookAll
        requires few { length writes.old.items < 2 ^ 32 }
        ensures takes { TakesAll TakesHeld self.old.core writes.old.items (left_behind result.refused self.new.taking writes.new.items) result self.new.core }
        ensures stores { StoresAll D.Device self.old result.refused self.new }
        ensures sound { IsSoundServer self.old.core × IsSoundServer self.new.core }
        ensures some { result.refused ≡ None → (writes.new.items ≡ []) ⊎ (0 < result.taken + result.had) }
    {
        let told = take_meanwhile(
            alloc,
            &mut self.journal,
            &mut self.holding,
            self.id,
            writes,
            waiting,
        );
        self.holding.log.catch_up();
        told
    }

    /// Brings the server up again: it opens its journal again, and compares what it finds there with the Writes held. Device
    /// calls: those of the journal's opening alone. A refusal leaves the server down; what was cut of the journal stays cut.
    /// To adopt the Write in doubt takes no memory, unless it was stored in a piece with others: then what is held is made anew.
    pub fn reopen(&mut self, alloc: Global) -> Result<Reopened, ReopenFault>
        ensures reopens { ReopensAll self.old.core self.old.taking result self.new.core }
        ensures own { MatchResult result (λ reopened. own_count self.new.core ≡ own_count self.old.core + own_adopted self.old.core.id reopened.adopted) (λ _. own_count self.new.core ≡ own_count self.old.core) }
        ensures sound { IsSoundServer self.old.core × IsSoundServer self.new.core }
        ensures others { MatchResult result (λ _. self.new.taking ≡ []) (λ _. self.new.taking ≡ self.old.taking) }
        ensures opens { ReopensJournal D.Device self.old result self.new }
        ensures stored { D.is_modelled → OnOk result (IsStored D.Device self.new) }
        ensures safe { D.is_modelled → KeepsChains (D.kept self.old.device) (D.kept self.new.device) }
        ensures calls { OpensInCalls D.Device self.old.core.id self.old.device self.new.device }
    {
        an_honest_device_opens_honestly::<D>();
        if self.holding.doubt.is_none() {
            return Err(ReopenFault::NotDown);
        }
        let opened = self.journal.reopen(alloc)?;
        if self.holding.together {
            return settle_several(alloc, self.id, &opened, &mut self.holding);
        }
        let adopts = has_doubt(alloc, self.id, &opened, &self.holding)?;
        let Some(write) = self.holding.doubt.take() else {
            unreachable!();
        };
        if !adopts {
            self.holding.tags.forget();
            return Ok(Reopened { adopted: None });
        }
        let wid = write.wid();
        self.holding.log.insert(write);
        self.holding.tags.settle();
        Ok(Reopened { adopted: Some(wid) })
    }

    /// For each server the number of its Writes that are held.
    pub fn vector(&self) -> Vector
        ensures { result ≡ count_of self.now.core.held }
    {
        self.holding.log.vector()
    }

    /// Whether a Write is in doubt.
    pub fn is_down(&self) -> bool
        ensures { IsTrue result ↔ IsSome self.now.core.doubt }
    {
        self.holding.doubt.is_some()
    }

    /// Which server it is.
    pub fn id(&self) -> ServerId
        ensures value { result.index ≡ self.now.core.id }
        ensures known { result.index < self.now.core.count }
    {
        self.id
    }

    /// How many servers there are.
    pub fn count(&self) -> u8
        ensures value { result ≡ self.now.core.count }
        ensures in_range { result ≤ SERVERS }
    {
        self.holding.log.count()
    }

    /// How many Writes it may hold.
    pub fn limit(&self) -> u32
        ensures value { result ≡ self.now.core.limit }
        ensures in_range { result ≤ MAX_WRITES }
    {
        self.holding.log.limit()
    }

    /// The greatest run of the tags of the Writes held, 0 where none has a tag. It looks at each tag.
    pub fn last_run(&self) -> u32
        ensures { IsGreatestRun self.now.core.tags result }
    {
        self.holding.tags.last_run()
    }

    /// The Write of this name, if it is held.
    pub fn find(&self, wid: Wid) -> Option<&RestingWrite>
        ensures { MatchOption result (All (λ write. write.wid ≢ wid) self.now.core.held) (λ write. Contains self.now.core.held write.now × (write.now.wid ≡ wid)) }
    {
        self.holding.log.find(wid)
    }

    /// The Writes held, in order of receipt.
    pub fn receipts(&self) -> &[RestingWrite]
        ensures value { result.now ≡ self.now.core.held }
        ensures sound { IsSoundServer self.now.core }
    {
        self.holding.log.receipts()
    }

    /// The Writes held, in stamp order, each with the outcome that it has in the replay.
    pub fn listing(&self, alloc: Global) -> Result<Vec<Listed>, AllocError>
        ensures { IfOk result (λ list. list.items ≡ listing_of self.now.core.held) }
    {
        self.holding.log.listing(alloc)
    }

    /// Copies of the first `max` of the Writes held, in stamp order, that the vector doesn't count: what a server with these
    /// counts lacks (anti-entropy, Petersen et al. 1997). It costs what it gives, however much is held.
    pub fn lacking(
        &self,
        alloc: Global,
        counts: &Vector,
        max: usize,
    ) -> Result<Vec<RestingWrite>, AllocError>
        ensures value { IfOk result (λ writes. writes.items ≡ take max (lacking_of counts.now self.now.core.held)) }
        ensures sound { IsSoundServer self.now.core }
    {
        self.holding.log.lacking(alloc, counts, max)
    }

    /// Copies of the Writes held, in order of receipt.
    pub fn dump(&self, alloc: Global) -> Result<Vec<RestingWrite>, AllocError>
        ensures { IfOk result (λ writes. writes.items ≡ self.now.core.held) }
    {
        copies(alloc, self.holding.log.receipts())
    }

    /// Copies of the Writes held from this place on in the order of receipt, the first of which is at 0, and so many at the most.
    pub fn dump_part(
        &self,
        alloc: Global,
        place: usize,
        most: usize,
    ) -> Result<Vec<RestingWrite>, AllocError>
        ensures { IfOk result (λ writes. writes.items ≡ take most (drop place self.now.core.held)) }
    {
        let held = self.holding.log.receipts();
        let (_, behind) = held.split_at(place.min(held.len()));
        let (part, _) = behind.split_at(most.min(behind.len()));
        copies(alloc, part)
    }

    /// Ends the server, which takes no memory and makes no device call. Its database is gone then.
    pub fn stop(self) -> Stopped<D>
        ensures device { result.device ≡ self.device }
        ensures last { result.last ≡ holds_of self.core }
        ensures sound { IsSoundServer self.core }
    {
        let Server {
            journal,
            holding,
            id: _,
        } = self;
        Stopped {
            device: journal.close(),
            last: LastHeld::new(holding),
        }
    }

    /// Its device, to look at.
    pub fn see_device(&self) -> &D
        ensures { result.now ≡ self.now.device }
    {
        self.journal.see_device()
    }

    /// Its device, for what only the device can do, as to set a fuse in a test.
    pub fn device(&mut self) -> &mut D
        ensures value { result.now ≡ self.old.device }
        ensures* writes_back { sem 𝓛 (Lends (the_row D.row) D.row self.entry result (with_device self.old)) }
    {
        self.journal.device()
    }
}

// The Writes again.
pub(crate) fn copies(
    alloc: Global,
    writes: &[RestingWrite],
) -> Result<Vec<RestingWrite>, AllocError>
    ensures { IfOk result (λ copies. copies.items ≡ writes.now) }
{
    let mut copies = Vec::new(alloc);
    for write in writes {
        copies.push(write.copy(alloc)?)?;
    }
    Ok(copies)
}
