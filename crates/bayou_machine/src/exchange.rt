//! A server of a script that takes Writes from another.
ghost use Rattle.std.specs.Prelude.{◌≡◌, ◌≤◌, ◌*◌, ℕ, All, IfErr, IfOk, List, Option, length};
ghost use Rattle.bayou_base.specs.declared.limits.TheConstants.{MAX_TURNS, MAX_WRITES, READ_BYTES};
ghost use Rattle.bayou_lang.specs.declared.write.Write.{Write};
ghost use Rattle.bayou_lang.specs.Ranges.{IsWrite};
ghost use Rattle.bayou_lang.specs.Writes.{lacking_of};
ghost use Rattle.bayou_peer.specs.Meeting.{Meets, cut_answer};
ghost use Rattle.bayou_machine.specs.Exchange.{own_counts, serving_ways};
ghost use Rattle.bayou_machine.specs.Inner.Sent.{IsAnswer, IsGiven, IsNoAnswer, Sends};

use crate::script_server::ScriptServer;
use bayou_answers::Transfer;
use bayou_base::Vector;
use bayou_device::{MemoryDevice, OpenGate};
use bayou_frames::ChannelFault;
use bayou_peer::meeting::a_pull_takes_what_is_sent;
use bayou_peer::{PullStopped, Pulled, answer_offer_on, take_answer};
use bayou_server::Server;
use bayou_streams::CountedChannel;
use std::alloc::{AllocError, Global};

type Serving = Server<MemoryDevice<OpenGate>>;

/// The server's answer to an Offer of these counts. Bytes in memory fail for want of it alone.
fn answer_of(alloc: Global, server: &mut Serving, counts: &Vector) -> Result<Vec<u8>, AllocError>
    ensures same { server.new ≡ server.old }
    ensures sent { IfOk result (λ answer. Sends (lacking_of counts.now server.old.core.held) answer.items) }
{
    let _sound = server.receipts();
    // What it holds stays below its limit, which is within its range.
    let _limit = server.limit();
    let mut channel = CountedChannel::new((), Vec::new(alloc));
    match answer_offer_on(alloc, server, counts, &mut channel) {
        Ok(_) => Ok(channel.into_parts().1),
        Err(_) => Err(AllocError),
    }
}

/// What the server makes of an input.
fn take_from(alloc: Global, server: &mut Serving, input: &[u8]) -> Result<Pulled, PullStopped>
    requires { length input.now ≤ READ_BYTES * MAX_TURNS }
    ensures { (sent : List Write) (cut : Option ℕ) → All IsWrite sent → length sent ≤ MAX_WRITES → input.now ≡ cut_answer cut sent
        → Meets serving_ways sent cut server.old result server.new }
{
    a_pull_takes_what_is_sent::<Serving>();
    take_answer(alloc, server, input)
}

impl ScriptServer {
    /// For each server the number of its Writes that are held.
    pub(crate) fn counts(&self) -> Vector
        ensures { result ≡ own_counts self.now }
    {
        match self {
            ScriptServer::Running(server) => server.vector(),
            ScriptServer::Stopped(stopped) => stopped.last.vector(),
        }
    }

    /// Its answer to an Offer of these counts.
    pub(crate) fn answer(&mut self, alloc: Global, counts: &Vector) -> Result<Vec<u8>, Transfer>
        ensures same { self.new ≡ self.old }
        ensures sent { IfOk result (λ answer. IsAnswer counts.now self.old answer.items) }
        ensures none { IfErr result (IsNoAnswer self.old) }
    {
        let ScriptServer::Running(server) = self else {
            return Err(Transfer::NotRunning);
        };
        match answer_of(alloc, server, counts) {
            Ok(answer) => Ok(answer),
            Err(_) => Err(Transfer::Ended(Err(PullStopped::at_once(ChannelFault::OutOfMemory)))),
        }
    }

    /// What it makes of an input.
    pub(crate) fn take_from(&mut self, alloc: Global, input: &[u8]) -> Transfer
        requires { length input.now ≤ READ_BYTES * MAX_TURNS }
        ensures { (sent : List Write) (cut : Option ℕ) → All IsWrite sent → length sent ≤ MAX_WRITES → input.now ≡ cut_answer cut sent
            → IsGiven sent cut self.old result self.new }
    {
        match self {
            ScriptServer::Running(server) => Transfer::Ended(take_from(alloc, server, input)),
            ScriptServer::Stopped(_) => Transfer::NotRunning,
        }
    }
}
