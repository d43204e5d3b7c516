//! A session's reads and Writes, at the first server that serves them.
ghost use Rattle.std.specs.Prelude.{◌≡◌, IfOk, OnOk};
ghost use Rattle.bayou_connect.specs.Claiming.{MakesWrite, ReadsKey};
ghost use Rattle.bayou_streams.specs.Account.{account};

use crate::anywhere::anywhere;
use crate::asking::Requested;
use crate::desk::{MadeWrite, PersonDesk};
use crate::fault::ConnectFault;
use bayou_base::{Key, SessionId};
use bayou_lang::RestingProgram;
use bayou_net::Sockets;
use bayou_streams::Output;
use std::fs::{File, Files};
use std::io::Write;
use std::sync::Wait;
use std::time::Clock;

impl PersonDesk {
    /// A session's read, at any server.
    pub(crate) fn get<W: Write, T: Files<File = File> + Sockets + Wait + Clock>(
        &mut self,
        rt: &T,
        output: &mut Output<W>,
        who: SessionId,
        key: Key,
    ) -> Result<(), ConnectFault>
        ensures read { OnOk result (ReadsKey who key self.old self.new (account W.contents output.old) (account W.contents output.new)) }
        ensures others { self.new ≡ record self.old { store = self.new.store; is_served = self.new.is_served } }
    {
        let attempt = Requested::Read(key.copy());
        let told = anywhere(rt, &mut self.store, who, &attempt, self.first, self.rounds)?;
        self.finish(output, who, &Some(key), told)
    }

    /// A session's Write, at any server: as what it was accepted, if it was.
    pub(crate) fn write<W: Write, T: Files<File = File> + Sockets + Wait + Clock>(
        &mut self,
        rt: &T,
        output: &mut Output<W>,
        who: SessionId,
        program: RestingProgram,
    ) -> Result<Option<MadeWrite>, ConnectFault>
        ensures written { IfOk result (MakesWrite who program self.old self.new (account W.contents output.old) (account W.contents output.new)) }
        ensures others { self.new ≡ record self.old { store = self.new.store; is_served = self.new.is_served } }
    {
        let attempt = Requested::Write(program);
        let told = anywhere(rt, &mut self.store, who, &attempt, self.first, self.rounds)?;
        let made = self.made_by(&told);
        self.finish(output, who, &None, told)?;
        Ok(made)
    }
}
