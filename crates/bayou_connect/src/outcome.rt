//! What became of a Write, as a server tells it.
ghost use Rattle.std.specs.Prelude.{◌≡◌, ◌&&◌, IfOk, OnOk};
ghost use Rattle.bayou_connect.specs.Claiming.{IsPlaceOr, TellsBecame, TellsOutcome, fate_told, is_fate_service};
ghost use Rattle.bayou_connect.specs.Desks.{IsSameDesk};
ghost use Rattle.bayou_connect.specs.Printing.{changes_something};
ghost use Rattle.bayou_print.specs.Connected.{became_text};
ghost use Rattle.bayou_streams.specs.Account.{TakesBytes, account};

use crate::anywhere::anywhere;
use crate::asking::Requested;
use crate::desk::{MadeWrite, PersonDesk, print};
use crate::fault::ConnectFault;
use crate::told::ServerTold;
use bayou_base::{SessionId, Wid};
use bayou_net::Sockets;
use bayou_print::became_line;
use bayou_streams::Output;
use bayou_wire::{Became, Placed};
use std::fs::{File, Files};
use std::io::Write;
use std::sync::Wait;
use std::time::Clock;

impl PersonDesk {
    // Prints what became of a Write. One that changed nothing isn't what was asked for.
    fn print_placed<W: Write>(
        &mut self,
        output: &mut Output<W>,
        who: SessionId,
        wid: Wid,
        placed: &Option<Placed>,
    ) -> Result<(), ConnectFault>
        ensures printed { OnOk result (TakesBytes (account W.contents output.old) (account W.contents output.new) (became_text who.index wid placed.now)) }
        ensures served { self.new.is_served ≡ (self.old.is_served && changes_something placed.now) }
        ensures same { self.new.store ≡ self.old.store }
        ensures desk { IsSameDesk self.old self.new }
    {
        if let Some(
            Placed {
                became: Became::Nothing,
                ..
            },
        ) = placed
        {
            self.is_served = false;
        }
        let line = became_line(self.alloc, who, wid, placed)?;
        print(output, line.as_str())
    }

    /// Prints what became of a Write that was accepted, by the server that accepted it; or that it is unknown, where that server doesn't tell. It is asked for
    /// nobody: the session has read nothing by it.
    pub(crate) fn tell_outcome<W: Write, T: Files<File = File> + Sockets + Clock>(
        &mut self,
        rt: &T,
        output: &mut Output<W>,
        who: SessionId,
        made: MadeWrite,
    ) -> Result<Option<Placed>, ConnectFault>
        ensures told { IfOk result (TellsOutcome who made self.old self.new (account W.contents output.old) (account W.contents output.new)) }
        ensures same { IsSameDesk self.old self.new }
    {
        let placed = match self.store.fate_at(rt, made.at, made.wid)? {
            Some(fate) => fate.placed,
            None => None,
        };
        self.keep_own(rt, output, made, &placed)?;
        self.print_placed(output, who, made.wid, &placed)?;
        Ok(placed)
    }

    // The place of the server that accepted the Write; where it isn't at hand, of the one that is asked first.
    fn place_for(&self, wid: Wid) -> usize
        ensures { IsPlaceOr self.now.store.accesses.items wid.origin self.now.first result }
    {
        match self.store.place_of(wid.origin) {
            Some(at) => at,
            None => self.first,
        }
    }

    // Prints what a session heard that asked what became of a Write.
    fn print_told<W: Write>(
        &mut self,
        output: &mut Output<W>,
        who: SessionId,
        wid: Wid,
        told: ServerTold,
    ) -> Result<(), ConnectFault>
        ensures printed { OnOk result (TakesBytes (account W.contents output.old) (account W.contents output.new) (fate_told self.old.servers who wid told)) }
        ensures served { self.new.is_served ≡ (self.old.is_served && is_fate_service told) }
        ensures same { self.new.store ≡ self.old.store }
        ensures desk { IsSameDesk self.old self.new }
    {
        match told {
            ServerTold::Fate(fate) => self.print_placed(output, who, wid, &fate.placed),
            ServerTold::Seen(seen) => self.finish(output, who, &None, ServerTold::Seen(seen)),
            ServerTold::Rows(page) => self.finish(output, who, &None, ServerTold::Rows(page)),
            ServerTold::Accepted(accepted) => self.finish(
                output,
                who,
                &None,
                ServerTold::Accepted(accepted),
            ),
            ServerTold::Refused(refusal) => self.finish(
                output,
                who,
                &None,
                ServerTold::Refused(refusal),
            ),
            ServerTold::Away => self.finish(output, who, &None, ServerTold::Away),
            ServerTold::Lost => self.finish(output, who, &None, ServerTold::Lost),
        }
    }

    /// Prints what became of a Write, by the first server that tells the session: the one that accepted it is asked first.
    pub(crate) fn became<W: Write, T: Files<File = File> + Sockets + Wait + Clock>(
        &mut self,
        rt: &T,
        output: &mut Output<W>,
        who: SessionId,
        wid: Wid,
    ) -> Result<(), ConnectFault>
        ensures { OnOk result (TellsBecame who wid self.old self.new (account W.contents output.old) (account W.contents output.new)) }
    {
        let first = self.place_for(wid);
        let attempt = Requested::Became(wid);
        let told = anywhere(rt, &mut self.store, who, &attempt, first, self.rounds)?;
        self.print_told(output, who, wid, told)
    }
}
