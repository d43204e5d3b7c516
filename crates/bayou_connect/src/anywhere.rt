//! A short line, at the first server that serves it.
ghost use Rattle.std.specs.Prelude.{◌≡◌, IfOk};
ghost use Rattle.bayou_connect.specs.Anywhere.{AsksAnywhere, AsksAt};

use crate::asking::Requested;
use crate::fault::ConnectFault;
use crate::round::{Ways, in_rounds};
use crate::store::Store;
use crate::told::ServerTold;
use bayou_base::SessionId;
use bayou_net::Sockets;
use std::fs::{File, Files};
use std::sync::Wait;
use std::time::Clock;

// What a session asks.
#[derive(Drop)]
struct Asking<'a, T> {
    rt: &'a T,
    who: SessionId,
    attempt: &'a Requested,
}

impl<'a, T: Files<File = File> + Sockets + Wait + Clock> Ways<Asking<'a, T>> for Store {
    type Fault = ConnectFault;

    ghost asks = { λ what old at new told. AsksAt what.who what.attempt.now old at new told };

    fn ask(&mut self, what: &Asking<'a, T>, at: usize) -> Result<ServerTold, ConnectFault> {
        let attempt = what.attempt.copy(self.alloc())?;
        self.ask_at(what.rt, what.who, at, attempt)
    }
}

/// Has the session ask each server in turn, from this one on, and round again so often while another may be asked.
pub(crate) fn anywhere<T: Files<File = File> + Sockets + Wait + Clock>(
    rt: &T,
    store: &mut Store,
    who: SessionId,
    attempt: &Requested,
    first: usize,
    rounds: u64,
) -> Result<ServerTold, ConnectFault>
    ensures { IfOk result (AsksAnywhere who attempt.now first rounds store.old store.new) }
{
    if first >= store.len() {
        return Ok(ServerTold::Away);
    }
    let order = store.order(rt, first)?;
    let asking = Asking { rt, who, attempt };
    in_rounds(rt, store, &asking, &order, attempt.is_read(), rounds)
}
