//! What short lines ask for.
ghost use Rattle.std.specs.Prelude.{◌≡◌, IfOk, MatchBool, OnOk};
ghost use Rattle.bayou_connect.specs.Claiming.{MakesPlainly};
ghost use Rattle.bayou_connect.specs.Sessions.{own_session};
ghost use Rattle.bayou_connect.specs.Wishing.{DoesWish, GetsKey, GetsKeys, GoesTo, Makes};
ghost use Rattle.bayou_person.specs.Doing.{is_write};
ghost use Rattle.bayou_streams.specs.Account.{account};

use crate::claiming::Claim;
use crate::desk::{OWN, PersonDesk};
use crate::fault::ConnectFault;
use bayou_base::{Key, ServerId};
use bayou_lang::RestingProgram;
use bayou_net::Sockets;
use bayou_person::Wish;
use bayou_streams::Output;
use std::fs::{File, Files};
use std::io::Write;
use std::sync::Wait;
use std::time::Clock;

impl PersonDesk {
    // Makes a Write of this program, and tells what became of it, where it was accepted.
    fn make_plainly<W: Write, T: Files<File = File> + Sockets + Wait + Clock>(
        &mut self,
        rt: &T,
        output: &mut Output<W>,
        program: RestingProgram,
    ) -> Result<(), ConnectFault>
        ensures { OnOk result (MakesPlainly own_session program self.old self.new (account W.contents output.old) (account W.contents output.new)) }
    {
        let made = self.write(rt, output, OWN, program)?;
        match made {
            None => Ok(()),
            Some(made) => {
                self.tell_outcome(rt, output, OWN, made)?;
                Ok(())
            }
        }
    }

    // Does what a wish that is a Write asks for, and tells what became of it.
    fn wish_write<W: Write, T: Files<File = File> + Sockets + Wait + Clock>(
        &mut self,
        rt: &T,
        output: &mut Output<W>,
        wish: &Wish,
    ) -> Result<(), ConnectFault>
        ensures { OnOk result (MatchBool (is_write wish.now) (Makes wish.now self.old self.new (account W.contents output.old) (account W.contents output.new)) ((self.new ≡ self.old) × (output.new ≡ output.old))) }
    {
        let Some(program) = wish.program(self.alloc)? else {
            return Ok(());
        };
        match wish {
            Wish::Claim { key, others, value } => {
                let others = others.as_slice();
                let claim = Claim { key, others, value };
                self.claim(rt, output, OWN, claim, program)
            }
            Wish::Add { key, .. } => self.add(rt, output, OWN, key, program),
            Wish::Put { .. } | Wish::Del { .. } => self.make_plainly(rt, output, program),
            // No other wish is a Write.
            Wish::Get { .. }
            | Wish::At(_)
            | Wish::List
            | Wish::Rows { .. }
            | Wish::Became(_)
            | Wish::Servers
            | Wish::Session
            | Wish::Dump => Ok(()),
        }
    }

    // Reads the key, and tells how its value stands, where it is kept what is final.
    fn get_one<W: Write, T: Files<File = File> + Sockets + Wait + Clock>(
        &mut self,
        rt: &T,
        output: &mut Output<W>,
        key: &Key,
    ) -> Result<(), ConnectFault>
        ensures { OnOk result (GetsKey key.now self.old self.new (account W.contents output.old) (account W.contents output.new)) }
    {
        self.get(rt, output, OWN, key.copy())?;
        self.tell_key_standing(rt, output, key)
    }

    // Reads these keys, one after another.
    fn get_all<W: Write, T: Files<File = File> + Sockets + Wait + Clock>(
        &mut self,
        rt: &T,
        output: &mut Output<W>,
        keys: &[Key],
    ) -> Result<(), ConnectFault>
        ensures { OnOk result (GetsKeys keys.now self.old self.new (account W.contents output.old) (account W.contents output.new)) }
    {
        for key in keys {
            self.get_one(rt, output, key)?;
        }
        Ok(())
    }

    // Has short lines ask this server first from then on. Whether it is at hand.
    fn go_to(&mut self, server: ServerId) -> bool
        ensures { GoesTo server self.old self.new result }
    {
        match self.store.place_of(server) {
            Some(at) => {
                self.first = at;
                true
            }
            None => false,
        }
    }

    /// Does what a short line asks for. Whether it can be done here.
    pub(crate) fn wish<W: Write, T: Files<File = File> + Sockets + Wait + Clock>(
        &mut self,
        rt: &T,
        output: &mut Output<W>,
        wish: Wish,
    ) -> Result<bool, ConnectFault>
        ensures { IfOk result (DoesWish wish self.old self.new (account W.contents output.old) (account W.contents output.new)) }
    {
        match &wish {
            Wish::Get { key, others } => {
                self.get_one(rt, output, key)?;
                self.get_all(rt, output, others.as_slice())?;
                Ok(true)
            }
            Wish::At(server) => Ok(self.go_to(*server)),
            Wish::List => {
                self.list(rt, output, OWN, None)?;
                Ok(true)
            }
            Wish::Rows { prefix } => {
                self.list(rt, output, OWN, Some(prefix))?;
                Ok(true)
            }
            Wish::Became(wid) => {
                self.became(rt, output, OWN, *wid)?;
                Ok(true)
            }
            Wish::Servers => {
                self.tell_servers(rt, output)?;
                Ok(true)
            }
            Wish::Session => {
                self.tell_session(output)?;
                Ok(true)
            }
            Wish::Dump => self.dump(rt, output),
            Wish::Put { .. } | Wish::Add { .. } | Wish::Del { .. } | Wish::Claim { .. } => {
                self.wish_write(rt, output, &wish)?;
                Ok(true)
            }
        }
    }
}
