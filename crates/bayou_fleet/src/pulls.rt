//! Servers that take Writes from one another, over sockets.
ghost use Rattle.std.specs.Prelude.{◌≡◌, ◌+◌, ◌≤◌, All, IfOk, length, vec_capacity, vec_len};
ghost use Rattle.bayou_answers.specs.declared.answer.Answer.TheVariants.{Exchanged};
ghost use Rattle.bayou_answers.specs.declared.answer.Transfer.{Transfer as Told};
ghost use Rattle.bayou_answers.specs.declared.answer.Transfer.TheVariants.{NotRunning};

use crate::links::reach;
use crate::mailbox::Mailbox;
use crate::phase::Pull;
use bayou_answers::{Answer, Transfer};
use bayou_frames::ChannelFault;
use bayou_net::Sockets;
use bayou_peer::PullStopped;
use std::alloc::{AllocError, Global};
use std::net::SocketAddr;
use std::sync::Wait;

/// Has one server take from another, over a connection of its own. One that isn't reached is reported as stopped.
fn pull_one<T: Sockets + Wait>(
    rt: &T,
    mailboxes: &[Mailbox],
    addresses: &[SocketAddr],
    pull: Pull,
) -> Transfer
    ensures { length addresses.now ≤ pull.from.index → result ≡ NotRunning }
{
    let at = usize::from(pull.from.index);
    if at >= addresses.len() {
        return Transfer::NotRunning;
    }
    let Some(stream) = reach(rt, addresses[at]) else {
        return Transfer::NotRunning;
    };
    match mailboxes.get(usize::from(pull.to.index)) {
        Some(mailbox) => Transfer::Ended(mailbox.pull(rt, stream)),
        // Where there is no such server, no answer comes.
        None => Transfer::Ended(Err(PullStopped::at_once(ChannelFault::Cut))),
    }
}

/// Does these pulls in order, and tells what each is answered.
pub(crate) fn pull_each<T: Sockets + Wait>(
    rt: &T,
    alloc: Global,
    mailboxes: &[Mailbox],
    addresses: &[SocketAddr],
    pulls: Vec<Pull>,
) -> Result<Vec<Answer>, AllocError>
    ensures one_each { IfOk result (λ answers. vec_len answers ≡ vec_len pulls) }
    ensures told { IfOk result (λ answers. All (λ answer. (transfer : Told) × (answer ≡ Exchanged transfer)) answers.items) }
{
    let mut answers = Vec::with_capacity(alloc, pulls.len())?;
    for pull in pulls {
        let transfer = pull_one(rt, mailboxes, addresses, pull);
        answers.push_reserved(Answer::Exchanged(transfer));
    }
    Ok(answers)
}
