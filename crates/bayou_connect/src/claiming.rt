//! Claims, of several keys one, and what an addition came to.
ghost use Rattle.std.specs.Prelude.{◌≡◌, ◌↔◌, ◌∷◌, ◌&&◌, IfOk, OnOk, not, true};
ghost use Rattle.bayou_connect.specs.Claiming.{ClaimsOne, LookFree, LooksForText, LooksFree, MakesAddition, MakesClaim, TellsAdded, TellsClaim, TellsKey, TellsKeys, TellsMade, is_text as sees_text};
ghost use Rattle.bayou_connect.specs.Desks.{IsSameSeat};
ghost use Rattle.bayou_connect.specs.Operating.{SeesOther};
ghost use Rattle.bayou_streams.specs.Account.{account};

use crate::anywhere::anywhere;
use crate::asking::Requested;
use crate::desk::{MadeWrite, PersonDesk};
use crate::fault::ConnectFault;
use crate::told::ServerTold;
use bayou_base::{Key, Seen, SessionId, Value};
use bayou_lang::RestingProgram;
use bayou_net::Sockets;
use bayou_streams::Output;
use std::fs::{File, Files};
use std::io::Write;
use std::sync::Wait;
use std::time::Clock;

/// What a claim asks for: of these keys the first that is absent gets the value.
#[derive(Clone, Copy, Debug)]
pub(crate) struct Claim<'a> {
    pub(crate) key: &'a Key,
    pub(crate) others: &'a [Key],
    pub(crate) value: &'a Value,
}

// Whether a read was served, and saw another value than this, or none.
fn is_other(told: &ServerTold, value: &Value) -> bool
    ensures { result ≡ true ↔ SeesOther value.now told.now }
{
    match told {
        ServerTold::Seen(seen) => seen.value.as_ref() != Some(value),
        ServerTold::Away
        | ServerTold::Rows(_)
        | ServerTold::Fate(_)
        | ServerTold::Accepted(_)
        | ServerTold::Refused(_)
        | ServerTold::Lost => false,
    }
}

// Whether a claim is reported to have done nothing: each of its keys has another value, and it isn't known what became of it.
fn came_to_nothing(are_other: bool, is_known: bool) -> bool
    ensures { result ≡ (are_other && not is_known) }
{
    are_other && !is_known
}

// Whether a text was seen.
fn is_text(seen: &Option<Seen>) -> bool
    ensures { result ≡ sees_text seen.now }
{
    match seen {
        None => false,
        Some(seen) => match &seen.value {
            Some(Value::Text(_)) => true,
            Some(Value::Num(_)) | None => false,
        },
    }
}

impl PersonDesk {
    // Has the session read the key, at any server. Whether the key has another value than this; else what it learned is printed.
    fn is_free<W: Write, T: Files<File = File> + Sockets + Wait + Clock>(
        &mut self,
        rt: &T,
        output: &mut Output<W>,
        who: SessionId,
        key: &Key,
        value: &Value,
    ) -> Result<bool, ConnectFault>
        ensures read { IfOk result (LooksFree who value.now key.now self.old self.new (account W.contents output.old) (account W.contents output.new)) }
        ensures same { IsSameSeat self.old self.new }
    {
        let attempt = Requested::Read(key.copy());
        let told = anywhere(rt, &mut self.store, who, &attempt, self.first, self.rounds)?;
        if is_other(&told, value) {
            return Ok(true);
        }
        self.finish(output, who, &Some(key.copy()), told)?;
        Ok(false)
    }

    // Whether none of the keys has the value, as far as the session can see: else what it learned of the first that has it is printed, or of the
    // first that couldn't be read.
    fn are_free<W: Write, T: Files<File = File> + Sockets + Wait + Clock>(
        &mut self,
        rt: &T,
        output: &mut Output<W>,
        who: SessionId,
        claim: Claim<'_>,
    ) -> Result<bool, ConnectFault>
        ensures look { IfOk result (LookFree who claim.entry.value.now (claim.entry.key.now ∷ claim.entry.others.now) self.old self.new (account W.contents output.old) (account W.contents output.new)) }
        ensures same { IsSameSeat self.old self.new }
    {
        if !self.is_free(rt, output, who, claim.key, claim.value)? {
            return Ok(false);
        }
        for key in claim.others {
            if !self.is_free(rt, output, who, key, claim.value)? {
                return Ok(false);
            }
        }
        Ok(true)
    }

    // Has the server of this place in the list read the key, and prints what it told. Whether it told another value than this.
    fn tell_key<W: Write, T: Files<File = File> + Sockets + Wait + Clock>(
        &mut self,
        rt: &T,
        output: &mut Output<W>,
        who: SessionId,
        at: usize,
        key: &Key,
        value: &Value,
    ) -> Result<bool, ConnectFault>
        ensures told { IfOk result (TellsKey who value.now at key.now self.old self.new (account W.contents output.old) (account W.contents output.new)) }
        ensures same { IsSameSeat self.old self.new }
    {
        let told = self.store.ask_at(rt, who, at, Requested::Read(key.copy()))?;
        let is_other = is_other(&told, value);
        self.finish(output, who, &Some(key.copy()), told)?;
        Ok(is_other)
    }

    // Prints what each key of the claim has at the server of this place in the list, up to the first that has the value. Whether each has another.
    fn tell_keys<W: Write, T: Files<File = File> + Sockets + Wait + Clock>(
        &mut self,
        rt: &T,
        output: &mut Output<W>,
        who: SessionId,
        at: usize,
        claim: Claim<'_>,
    ) -> Result<bool, ConnectFault>
        ensures told { IfOk result (TellsKeys who claim.entry.value.now at (claim.entry.key.now ∷ claim.entry.others.now) self.old self.new (account W.contents output.old) (account W.contents output.new)) }
        ensures same { IsSameSeat self.old self.new }
    {
        if !self.tell_key(rt, output, who, at, claim.key, claim.value)? {
            return Ok(false);
        }
        for key in claim.others {
            if !self.tell_key(rt, output, who, at, key, claim.value)? {
                return Ok(false);
            }
        }
        Ok(true)
    }

    // Prints what a claim came to, by the server that accepted it: what each key has, up to the first that has the value; and that it did nothing,
    // where each has another and no server reported before what became of it.
    fn tell_claim<W: Write, T: Files<File = File> + Sockets + Wait + Clock>(
        &mut self,
        rt: &T,
        output: &mut Output<W>,
        who: SessionId,
        at: usize,
        claim: Claim<'_>,
        is_known: bool,
    ) -> Result<(), ConnectFault>
        ensures { OnOk result (TellsClaim who claim.entry.value.now at (claim.entry.key.now ∷ claim.entry.others.now) is_known self.old self.new (account W.contents output.old) (account W.contents output.new)) }
    {
        let are_other = self.tell_keys(rt, output, who, at, claim)?;
        let is_nothing = came_to_nothing(are_other, is_known);
        if !is_nothing {
            return Ok(());
        }
        self.tell_nothing(output, who)
    }

    // Prints what became of a claim's Write that was accepted, and what each key has.
    fn tell_made<W: Write, T: Files<File = File> + Sockets + Wait + Clock>(
        &mut self,
        rt: &T,
        output: &mut Output<W>,
        who: SessionId,
        made: MadeWrite,
        claim: Claim<'_>,
    ) -> Result<(), ConnectFault>
        ensures { OnOk result (TellsMade who claim.entry.value.now (claim.entry.key.now ∷ claim.entry.others.now) made self.old self.new (account W.contents output.old) (account W.contents output.new)) }
    {
        let placed = self.tell_outcome(rt, output, who, made)?;
        let is_known = placed.is_some();
        self.tell_claim(rt, output, who, made.at, claim, is_known)
    }

    // Makes the Write of a claim, and prints what it came to, where it was accepted.
    fn make_claim<W: Write, T: Files<File = File> + Sockets + Wait + Clock>(
        &mut self,
        rt: &T,
        output: &mut Output<W>,
        who: SessionId,
        claim: Claim<'_>,
        program: RestingProgram,
    ) -> Result<(), ConnectFault>
        ensures { OnOk result (MakesClaim who claim.entry.value.now (claim.entry.key.now ∷ claim.entry.others.now) program self.old self.new (account W.contents output.old) (account W.contents output.new)) }
    {
        let made = self.write(rt, output, who, program)?;
        match made {
            None => Ok(()),
            Some(made) => self.tell_made(rt, output, who, made, claim),
        }
    }

    /// A claim, which this program makes: nothing is written where one of its keys has the value already, or can't be read.
    pub(crate) fn claim<W: Write, T: Files<File = File> + Sockets + Wait + Clock>(
        &mut self,
        rt: &T,
        output: &mut Output<W>,
        who: SessionId,
        claim: Claim<'_>,
        program: RestingProgram,
    ) -> Result<(), ConnectFault>
        ensures { OnOk result (ClaimsOne who claim.entry.value.now (claim.entry.key.now ∷ claim.entry.others.now) program self.old self.new (account W.contents output.old) (account W.contents output.new)) }
    {
        let are_free = self.are_free(rt, output, who, claim)?;
        if !are_free {
            return Ok(());
        }
        self.make_claim(rt, output, who, claim, program)
    }

    // Prints that an addition did nothing, where its key has a text at the server of this place. That is looked up for nobody: the session has read
    // nothing by it.
    fn look_for_text<W: Write, T: Sockets + Clock>(
        &mut self,
        rt: &T,
        output: &mut Output<W>,
        who: SessionId,
        at: usize,
        key: &Key,
    ) -> Result<(), ConnectFault>
        ensures { OnOk result (LooksForText who self.old self.new (account W.contents output.old) (account W.contents output.new)) }
    {
        let seen = self.store.look_at(rt, at, key)?;
        let has_text = is_text(&seen);
        if !has_text {
            return Ok(());
        }
        self.tell_nothing(output, who)
    }

    // Prints what became of an addition that was accepted; and that it did nothing, where that isn't known and the key has a text.
    fn tell_added<W: Write, T: Files<File = File> + Sockets + Wait + Clock>(
        &mut self,
        rt: &T,
        output: &mut Output<W>,
        who: SessionId,
        made: MadeWrite,
        key: &Key,
    ) -> Result<(), ConnectFault>
        ensures { OnOk result (TellsAdded who made self.old self.new (account W.contents output.old) (account W.contents output.new)) }
    {
        let placed = self.tell_outcome(rt, output, who, made)?;
        match placed {
            Some(_) => Ok(()),
            None => self.look_for_text(rt, output, who, made.at, key),
        }
    }

    /// An addition to the key's number, which this program makes.
    pub(crate) fn add<W: Write, T: Files<File = File> + Sockets + Wait + Clock>(
        &mut self,
        rt: &T,
        output: &mut Output<W>,
        who: SessionId,
        key: &Key,
        program: RestingProgram,
    ) -> Result<(), ConnectFault>
        ensures { OnOk result (MakesAddition who program self.old self.new (account W.contents output.old) (account W.contents output.new)) }
    {
        let made = self.write(rt, output, who, program)?;
        match made {
            None => Ok(()),
            Some(made) => self.tell_added(rt, output, who, made, key),
        }
    }
}
