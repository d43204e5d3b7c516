//! The file that keeps what is known to be final, beside a state file.
ghost use Rattle.std.specs.Prelude.{◌≡◌, ◌↔◌, ◌++◌, [], false, true, IfErr, IfOk, IfSome, IsSomeAnd, None, OnOk, Some, codes, option_copied, option_map, string_bytes};
ghost use Rattle.bayou_connect.specs.Faults.{IsStateFault};
ghost use Rattle.bayou_connect.specs.Finals.{HasForgotten, HasGoneOn, HasHeard, HasMade, HasSettled, HasTold, IsOfStore, view_told};
ghost use Rattle.bayou_connect.specs.declared.fault.ConnectFault.TheVariants.{Views};
ghost use Rattle.bayou_outlook.specs.declared.outlook.Outlook.{Outlook as Known};

use crate::fault::ConnectFault;
use crate::told::ServerTold;
use bayou_base::{Refusal, ServerId, Vector};
use bayou_device::{Device, Failed, FileDevice};
use bayou_final::Standing;
use bayou_lang::RestingWrite;
use bayou_outlook::{Outlook, OwnWrite, read_outlook, spell_outlook};
use bayou_wire::{Became, ServerCount};
use std::alloc::{AllocError, Global};
use std::fs::{File, Files};
use std::{fs, str};

/// What is known of what is final, which a file keeps.
#[derive(Drop)]
pub(crate) struct ViewsFile {
    path: String,
    /// Nothing until a server told how many servers its store has.
    outlook: Option<Outlook>,
    /// Whether it is to be kept anew.
    is_changed: bool,
}

/// What a server held, by what it told of an operation, if it told that.
pub(crate) fn view_in(told: &ServerTold) -> Option<Vector>
    ensures { result ≡ view_told told.now }
{
    match told {
        ServerTold::Seen(seen) => Some(seen.vector),
        ServerTold::Rows(page) => Some(page.vector),
        ServerTold::Fate(fate) => Some(fate.vector),
        ServerTold::Accepted(accepted) => {
            let mut view = accepted.deps;
            view.raise(accepted.wid);
            Some(view)
        }
        ServerTold::Refused(Refusal::Behind(vector)) => Some(*vector),
        ServerTold::Refused(_) | ServerTold::Away | ServerTold::Lost => None,
    }
}

// What the file of this name has; nothing where it has none, and then it is made.
fn text_at<T: Files<File = File>>(
    rt: &T,
    alloc: Global,
    path: &str,
) -> Result<Vec<u8>, ConnectFault>
    ensures { IfErr result (λ fault. fault ≡ Views) }
{
    let Ok(mut device) = FileDevice::open(rt, path) else {
        return Err(ConnectFault::Views);
    };
    device.read_all(alloc).or(Err(ConnectFault::Views))
}

// What the bytes keep. Of a file that is empty that is nothing.
fn kept_in(alloc: Global, bytes: &[u8]) -> Result<Option<Outlook>, ConnectFault>
    ensures none { IfOk result (λ kept. (kept ≡ None) ↔ (bytes.now ≡ [])) }
    ensures fault { IfErr result IsStateFault }
{
    if bytes.is_empty() {
        return Ok(None);
    }
    let Ok(text) = str::from_utf8(bytes) else {
        return Err(ConnectFault::Views);
    };
    match read_outlook(alloc, text)? {
        Some(outlook) => Ok(Some(outlook)),
        None => Err(ConnectFault::Views),
    }
}

// Puts the text in the place of what the device has, and makes it last.
fn put<D: Device>(device: &mut D, text: &[u8]) -> Result<(), Failed>
    ensures { D.is_modelled → OnOk result ((D.content device.new ≡ text.now) × (D.kept device.new ≡ text.now)) }
{
    device.cut(0)?;
    device.append(text)?;
    device.sync()
}

impl ViewsFile {
    /// What is kept beside the state file of this name.
    pub(crate) fn open<T: Files<File = File>>(
        rt: &T,
        alloc: Global,
        state: &str,
    ) -> Result<Self, ConnectFault>
        ensures beside { IfOk result (λ file. (string_bytes file.path ≡ state.now ++ codes ".views") × (file.is_changed ≡ false)) }
        ensures fault { IfErr result IsStateFault }
    {
        let path = format!(in alloc; "{state}.views")?;
        let text = text_at(rt, alloc, path.as_str())?;
        Ok(ViewsFile {
            outlook: kept_in(alloc, text.as_slice())?,
            path,
            is_changed: false,
        })
    }

    /// What is known, if anything is.
    pub(crate) fn outlook(&self) -> Option<&Outlook>
        ensures { option_copied result ≡ self.now.outlook }
    {
        self.outlook.as_ref()
    }

    // Begins anew, where the store is known to have another number of servers than was thought.
    fn count(&mut self, alloc: Global, servers: ServerCount)
        ensures known { IsOfStore self.old.outlook servers.count self.new.outlook }
        ensures same { self.new.path ≡ self.old.path }
    {
        let is_same = match &self.outlook {
            Some(outlook) => outlook.finality().count() == servers.count,
            None => false,
        };
        if !is_same {
            let nothing = Vector::zero();
            self.outlook = Some(Outlook::of(alloc, servers.count, nothing));
        }
    }

    /// This server, of a store of so many, told this.
    pub(crate) fn hear(
        &mut self,
        alloc: Global,
        servers: ServerCount,
        server: ServerId,
        view: &Vector,
    )
        ensures heard { (known : Known) × IsOfStore self.old.outlook servers.count (Some known)
            × IsSomeAnd self.new.outlook (HasHeard known server.index view.now) }
        ensures changed { (self.new.is_changed ≡ true) × (self.new.path ≡ self.old.path) }
    {
        self.count(alloc, servers);
        self.is_changed = true;
        if let Some(outlook) = &mut self.outlook {
            outlook.hear(server, view);
        }
    }

    /// Whether all that a server holds is final, which holds this, what is final among it. It is to be kept anew.
    pub(crate) fn settle(&mut self, view: &Vector) -> bool
        ensures settled { HasSettled self.old.outlook view.now result self.new.outlook }
        ensures changed { (self.new.is_changed ≡ true) × (self.new.path ≡ self.old.path) }
    {
        self.is_changed = true;
        match &mut self.outlook {
            Some(outlook) => view.dominates(outlook.finality().finals()) && outlook.settle(view),
            None => false,
        }
    }

    /// As [`Outlook::go_on`], where anything is known. It is to be kept anew.
    pub(crate) fn go_on(&mut self, view: &Vector, writes: &[RestingWrite]) -> Option<usize>
        ensures gone_on { HasGoneOn self.old.outlook writes.now result self.new.outlook }
        ensures changed { (self.new.is_changed ≡ true) × (self.new.path ≡ self.old.path) }
    {
        self.is_changed = true;
        match &mut self.outlook {
            Some(outlook) => Some(outlook.go_on(view, writes)),
            None => None,
        }
    }

    /// As [`Outlook::made`], where anything is known. It is to be kept anew.
    pub(crate) fn made(&mut self, write: OwnWrite) -> Result<Option<OwnWrite>, AllocError>
        ensures made { IfOk result (λ gone. HasMade self.old.outlook write gone self.new.outlook) }
        ensures changed { (self.new.is_changed ≡ true) × (self.new.path ≡ self.old.path) }
    {
        self.is_changed = true;
        match &mut self.outlook {
            Some(outlook) => outlook.made(write),
            None => Ok(None),
        }
    }

    /// As [`Outlook::told`], where anything is known. It is to be kept anew.
    pub(crate) fn told(&mut self, place: usize, became: Became) -> Option<Standing>
        ensures told { HasTold self.old.outlook place became result self.new.outlook }
        ensures changed { (self.new.is_changed ≡ true) × (self.new.path ≡ self.old.path) }
    {
        self.is_changed = true;
        match &mut self.outlook {
            Some(outlook) => outlook.told(place, became),
            None => None,
        }
    }

    /// As [`Outlook::forget`], where anything is known. It is to be kept anew.
    pub(crate) fn forget(&mut self, place: usize)
        ensures forgotten { HasForgotten self.old.outlook place self.new.outlook }
        ensures changed { (self.new.is_changed ≡ true) × (self.new.path ≡ self.old.path) }
    {
        self.is_changed = true;
        if let Some(outlook) = &mut self.outlook {
            outlook.forget(place);
        }
    }

    /// Keeps what is known, where that was changed: the file has it whole, or what it had before.
    pub(crate) fn keep<T: Files<File = File>>(
        &mut self,
        rt: &T,
        alloc: Global,
    ) -> Result<(), ConnectFault>
        // What a file has no clause can say; `put` has one of any device.
        ensures same { (self.new.outlook ≡ self.old.outlook) × (self.new.path ≡ self.old.path) }
        ensures kept { OnOk result (self.new.is_changed ≡ true → self.new.outlook ≡ None) }
        ensures fault { IfErr result IsStateFault }
    {
        let (true, Some(outlook)) = (self.is_changed, &self.outlook) else {
            return Ok(());
        };
        let text = spell_outlook(alloc, outlook)?;
        let path = self.path.as_str();
        let part = format!(in alloc; "{path}.part")?;
        let Ok(mut device) = FileDevice::open(rt, part.as_str()) else {
            return Err(ConnectFault::Views);
        };
        if put(&mut device, text.as_bytes()).is_err()
            || fs::rename(rt, part.as_str(), path).is_err()
        {
            return Err(ConnectFault::Views);
        }
        self.is_changed = false;
        Ok(())
    }
}
