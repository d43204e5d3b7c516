//! How a journal that is lost is made again of what the peers have.
ghost use Rattle.std.specs.Prelude.{◌≡◌, IfErr, IfOk, IfSome, List, None, Ok, Result, length};
ghost use Rattle.bayou_lang.specs.declared.write.Write.{Write as Made};
ghost use Rattle.bayou_peer.specs.declared.fault.PullFault.{PullFault as PullFailure};
ghost use Rattle.bayou_restore.specs.declared.gathering.Gathered.{Gathered as Gatherer};
ghost use Rattle.bayou_serve.specs.declared.restoring.Gathering.TheVariants.{Answered};
ghost use Rattle.bayou_serve.specs.Choosing.{ChoosesAnswer};
ghost use Rattle.bayou_serve.specs.Faults.{MayEndRestoring};
ghost use Rattle.bayou_serve.specs.Remade.{AreFromEach, IsRestoring, TakesEachOf};

use crate::fault::{ServeFault, Unrestored};
use crate::greeting::{Way, stranger_line, way_to};
use crate::hall::ServiceHall;
use crate::left_out::{forget_left_out, keep_left_out};
use crate::lines::news_line;
use crate::pace::Pace;
use crate::plan::{Beginning, Peer, ServicePlan};
use crate::remaking::{Part, RemadeJournal, TakenWhole, give_name, made_on, take_all_of};
use crate::starting::look_for;
use crate::teller::Teller;
use crate::visit::News;
use crate::waiting::{Most, PatientStream, PatientWait, Since};
use bayou_base::limits::PEER_ANSWER_MILLISECONDS;
use bayou_base::{MAX_WRITES, ServerId, Vector};
use bayou_device::{Device, FileDevice};
use bayou_greeting::Stranger;
use bayou_handshake::StoreServer;
use bayou_net::Sockets;
use bayou_peer::{PullFault, pull_from_on};
use bayou_restore::{Gathered, first_difference};
use bayou_server::Server;
use bayou_streams::{CountedChannel, Patient};
use std::alloc::Global;
use std::fs;
use std::fs::{File, Files};
use std::io::{Read, Write};
use std::random::RandomSource;
use std::sync::Wait;
use std::time::Clock;

/// What a peer handed over, and that peer's number.
#[derive(Drop)]
pub(crate) struct PeerAnswer {
    peer: u8,
    gathered: Gathered,
}

// All that comes of an Offer of nothing over these streams, whose waits end by `WouldBlock`, or why it ended early.
fn gather_over<'x, R: Read + Drop, W: Write + Drop, T: Clock>(
    rt: &'x T,
    alloc: Global,
    plan: &ServicePlan,
    hall: &'x ServiceHall,
    since: &'x Since,
    pace: &'x Pace,
    reader: R,
    writer: W,
) -> Result<Gathered, PullFault>
    ensures { IfOk result (λ gathered. gathered.count ≡ plan.now.servers) }
{
    let most = Most::Paced(PEER_ANSWER_MILLISECONDS, pace);
    let patience = PatientWait::new(rt, hall, since, most);
    let reader = PatientStream::paced(Patient::new(reader, patience), rt, since, pace);
    let writer = PatientStream::new(writer, rt, since);
    let mut channel = CountedChannel::new(reader, writer);
    let mut gathered = Gathered::new(alloc, plan.servers, MAX_WRITES);
    match pull_from_on(alloc, &mut gathered, &Vector::zero(), &mut channel) {
        Ok(_) => Ok(gathered),
        Err(stopped) => Err(stopped.fault),
    }
}

/// What asking a peer for all that it has came to.
#[derive(Drop)]
enum Gathering {
    Away,
    /// Who answered isn't that peer.
    Stranger(Stranger),
    /// All that it has, or why its answer ended early.
    Answered(Result<Gathered, PullFault>),
}

// All that the peer has, if who answers is that peer.
fn gather_from<T: Clock + RandomSource + Sockets>(
    rt: &T,
    alloc: Global,
    plan: &ServicePlan,
    own: &StoreServer,
    peer: Peer,
    hall: &ServiceHall,
) -> Gathering
    ensures { (answer : Result Gatherer PullFailure) → result ≡ Answered answer → IfOk answer (λ gathered. gathered.count ≡ plan.now.servers) }
{
    let stream = match way_to(rt, alloc, own, peer, hall, None) {
        // Who tells no digests doesn't hear that it differs.
        Way::Away | Way::Differs { .. } | Way::Apart(_) => return Gathering::Away,
        Way::Stranger(stranger) => return Gathering::Stranger(stranger),
        Way::Open { stream, .. } => stream,
    };
    let (since, pace) = (Since::now(rt), Pace::new());
    Gathering::Answered(gather_over(rt, alloc, plan, hall, &since, &pace, &stream, &stream))
}

// Of two answers the one with more Writes of the server: the first, where both have as many. Under each name of it that both have they must
// have the same.
fn better_of(best: PeerAnswer, other: PeerAnswer, id: ServerId) -> Result<PeerAnswer, ServeFault>
    ensures { ChoosesAnswer id.index best other result }
{
    if let Some(number) = first_difference(&best.gathered, &other.gathered, id) {
        return Err(ServeFault::NotRestored(Unrestored::Differ {
            one: best.peer,
            other: other.peer,
            number,
        }));
    }
    if best.gathered.vector().get(id) < other.gathered.vector().get(id) {
        Ok(other)
    } else {
        Ok(best)
    }
}

// The better of the best so far and of one more.
fn with_answer(
    best: Option<PeerAnswer>,
    more: PeerAnswer,
    id: ServerId,
) -> Result<PeerAnswer, ServeFault>
    ensures first { best ≡ None → result ≡ Ok more }
    ensures next { IfSome best (λ best. ChoosesAnswer id.index best more result) }
{
    match best {
        None => Ok(more),
        Some(best) => better_of(best, more, id),
    }
}

/// Who asks, for which server, and where it reports.
#[derive(Drop)]
struct Asking<'a, E> {
    plan: &'a ServicePlan,
    own: &'a StoreServer,
    hall: &'a ServiceHall,
    teller: &'a Teller<E>,
}

// All that the peer has. One that is away, isn't that peer, or ends its answer early is reported, and ends it: it may have what nobody else has.
fn answer_of<E: Write, T: Wait + Clock + RandomSource + Sockets>(
    rt: &T,
    alloc: Global,
    asking: &Asking<'_, E>,
    peer: Peer,
) -> Result<Gathered, ServeFault>
    ensures count { IfOk result (λ gathered. gathered.count ≡ asking.now.plan.now.servers) }
    ensures fault { IfErr result MayEndRestoring }
{
    let Asking {
        plan,
        own,
        hall,
        teller,
    } = *asking;
    let number = peer.id.index;
    match gather_from(rt, alloc, plan, own, peer, hall) {
        Gathering::Away => {
            teller.tell_made(rt, news_line(alloc, peer, &News::Away));
            Err(ServeFault::NotRestored(Unrestored::Away(number)))
        }
        Gathering::Stranger(stranger) => {
            teller.tell_made(rt, stranger_line(alloc, peer, &stranger));
            Err(ServeFault::NotRestored(Unrestored::BadAnswer(number)))
        }
        Gathering::Answered(Ok(gathered)) => Ok(gathered),
        Gathering::Answered(Err(fault)) => {
            teller.tell_made(rt, news_line(alloc, peer, &News::Failed(fault)));
            Err(ServeFault::NotRestored(Unrestored::BadAnswer(number)))
        }
    }
}

// What that peer has which has most Writes of the server. Two answers with different Writes of one name of the server end it: nobody can say which one it
// gave last.
fn gather<E: Write, T: Wait + Clock + RandomSource + Sockets>(
    rt: &T,
    alloc: Global,
    asking: &Asking<'_, E>,
) -> Result<Gathered, ServeFault>
    ensures count { IfOk result (λ gathered. gathered.count ≡ asking.now.plan.now.servers) }
    ensures fault { IfErr result MayEndRestoring }
{
    let plan = asking.plan;
    let mut best: Option<PeerAnswer> = None;
    for peer in plan.peers.iter() {
        let gathered = answer_of(rt, alloc, asking, *peer)?;
        let peer = peer.id.index;
        best = Some(with_answer(best, PeerAnswer { peer, gathered }, plan.id)?);
    }
    match best {
        Some(best) => Ok(best.gathered),
        None => Err(ServeFault::NotRestored(Unrestored::NoPeer)),
    }
}

// Has the server hold all that each of these peers has, one after another. Each is asked again, so that no more than one answer is in memory. What the server held it
// holds.
fn take_from_each<D: Device, E: Write, T: Wait + Clock + RandomSource + Sockets>(
    rt: &T,
    alloc: Global,
    asking: &Asking<'_, E>,
    peers: &[Peer],
    server: &mut Server<D>,
) -> Result<Vec<TakenWhole>, ServeFault>
    ensures each { IfOk result (λ taken. AreFromEach peers.now taken.items) }
    ensures taken { IfOk result (λ taken. (answers : List (List Made)) × (length answers ≡ length taken.items) × TakesEachOf server.old.core answers server.new.core) }
    ensures fault { IfErr result MayEndRestoring }
{
    let mut taken: Vec<TakenWhole> = Vec::new(alloc);
    for peer in peers {
        let gathered = answer_of(rt, alloc, asking, *peer)?;
        let one = take_all_of(alloc, server, &gathered, peer.id)?;
        if taken.push(one).is_err() {
            return Err(ServeFault::Memory);
        }
    }
    Ok(taken)
}

// Makes the journal on this device, whose name is `part`, of what was gathered and of all that each peer has, has the file `without` tell who was left
// out, and gives the journal its name.
fn restored_on<E, T>(
    rt: &T,
    alloc: Global,
    asking: &Asking<'_, E>,
    path: &str,
    part: &str,
    without: &str,
    device: Part,
    gathered: Gathered,
) -> Result<RemadeJournal, ServeFault>
where
    E: Write,
    T: Wait + Clock + Files<File = File> + RandomSource + Sockets,
    requires { gathered.count ≡ asking.now.plan.now.servers }
    ensures made { IfOk result (λ restored. IsRestoring asking.now.plan.now gathered.writes restored.own) }
    ensures fault { IfErr result MayEndRestoring }
{
    look_for(rt, path, Beginning::Restore)?;
    let mut server = made_on(rt, alloc, asking.plan, device, &gathered)?;
    drop(gathered);
    let taken = take_from_each(rt, alloc, asking, &asking.plan.peers, &mut server)?;
    keep_left_out(rt, without, asking.plan.left_out.first().copied())?;
    give_name(rt, asking.plan, path, part, server, &taken)
}

// Tells how many own Writes there are again, and without whom it was restored.
fn tell_restored<E: Write, T: Wait>(
    rt: &T,
    alloc: Global,
    plan: &ServicePlan,
    restored: RemadeJournal,
    teller: &Teller<E>,
) {
    let own = restored.own();
    teller.tell_made(rt, format!(in alloc; "bayou: restored {own} own writes\n"));
    for server in plan.left_out.iter() {
        let number = server.index;
        teller.tell_made(
            rt,
            format!(in alloc;
                "bayou: restored without server {number}: what was told as final may change\n"
            ),
        );
    }
}

/// Makes the journal of this name, which is lost, again of what the peers have, and tells how many Writes of its own the server has again, and without
/// whom; the file `without` tells that from then on. It is made under another name, and is there under its own one whole or not at all: with all that each
/// peer had. What a file has no clause can say, nor what a peer answers; which Writes are the server's again is [`restore`](bayou_restore::restore)'s.
pub(crate) fn restore_journal<E, T>(
    rt: &T,
    alloc: Global,
    plan: &ServicePlan,
    own: &StoreServer,
    path: &str,
    without: &str,
    teller: &Teller<E>,
) -> Result<RemadeJournal, ServeFault>
where
    E: Write,
    T: Wait + Clock + Files<File = File> + RandomSource + Sockets,
    ensures made { IfOk result (λ restored. (writes : List Made) × IsRestoring plan.now writes restored.own) }
    ensures fault { IfErr result MayEndRestoring }
{
    look_for(rt, path, Beginning::Restore)?;
    let hall = ServiceHall::new(plan.habits.connections, plan.habits.idle_seconds);
    let asking = Asking {
        plan,
        own,
        hall: &hall,
        teller,
    };
    let gathered = gather(rt, alloc, &asking)?;
    let part = format!(in alloc; "{path}.part")?;
    let Ok(device) = FileDevice::open(rt, part.as_str()) else {
        return Err(ServeFault::NotRestored(Unrestored::NotOpened));
    };
    let part = part.as_str();
    match restored_on(rt, alloc, &asking, path, part, without, device, gathered) {
        Ok(restored) => {
            tell_restored(rt, alloc, plan, restored, teller);
            Ok(restored)
        }
        Err(fault) => {
            // Nothing of it is of any use; what can't be removed is emptied the next time.
            let _ = fs::remove_file(rt, part);
            forget_left_out(rt, without);
            Err(fault)
        }
    }
}
