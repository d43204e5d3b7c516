//! What a person learns of what is final.
ghost use Rattle.std.specs.Prelude.{◌≡◌, ◌+◌, ◌-◌, ◌^◌, ◌&&◌, ◌||◌, [], if◌then◌else◌, IfOk, None, Ok, OnOk, Some, is_none, min, not, slice_get, string_bytes, true};
ghost use Rattle.bayou_connect.specs.Beyond.{standing_at};
ghost use Rattle.bayou_connect.specs.Desks.{IsSameDesk};
ghost use Rattle.bayou_connect.specs.Finals.{is_void_for_good, keeps_finals, outlook_of, own_in, told_as};
ghost use Rattle.bayou_connect.specs.Own.{KeepsOwn, TellsAsLooked, TellsFrom, TellsOwn, forgotten_told, own_told, own_write, telling_all as all_told_by};
ghost use Rattle.bayou_connect.specs.Standing.{TellsKeyStanding};
ghost use Rattle.bayou_connect.specs.declared.finals.Telling.TheVariants.{News};
ghost use Rattle.bayou_base.specs.declared.limits.TheConstants.{MAX_OWN_WRITES as MOST};
ghost use Rattle.bayou_streams.specs.Account.{TakesBytes, account};

use crate::desk::{MadeWrite, OWN, PersonDesk, print};
use crate::fault::ConnectFault;
use crate::looking::Beyond;
use crate::objects::{forgotten_object, own_object};
use bayou_base::limits::MAX_OWN_WRITES;
use bayou_base::{Key, Wid};
use bayou_final::Standing;
use bayou_net::Sockets;
use bayou_outlook::OwnWrite;
use bayou_print::{forgotten_line, key_standing_line, standing_line};
use bayou_streams::Output;
use bayou_wire::{Became, Placed};
use std::alloc::{AllocError, Global};
use std::fs::{File, Files};
use std::io::Write;
use std::thread;
use std::time::{Clock, Duration};

/// How long it is rested before it is asked again whether all own Writes are final, in milliseconds.
const REST_MILLISECONDS: u64 = 250;

/// For how long it is waited for that where nothing is said, in seconds.
pub(crate) const WAIT_SECONDS: u32 = 60;

/// Which own Writes are reported, and how.
#[derive(Clone, Copy, Debug, PartialEq, Eq)]
pub(crate) enum Telling {
    /// Those with news, a line each.
    News,
    /// All, a line each.
    All,
    /// All, an object each.
    Objects,
}

/// That all own Writes are reported: an object each where that is so, and else a line each.
pub(crate) fn telling_all(is_json: bool) -> Telling
    ensures { result ≡ all_told_by is_json }
{
    if is_json {
        Telling::Objects
    } else {
        Telling::All
    }
}

// How an own Write is reported to stand, by what is news of it: where all are reported, one without news stands as it did, and may change.
fn standing_told(news: Option<Standing>, telling: Telling) -> Option<Standing>
    ensures { result ≡ told_as telling news }
{
    match (news, telling) {
        (None, Telling::News) => None,
        (None, Telling::All | Telling::Objects) => Some(Standing::Tentative),
        (Some(news), _) => Some(news),
    }
}

// The place of the next own Write: the same, where the one there is kept no longer.
fn place_behind(place: usize, is_gone: bool) -> usize
    ensures { result ≡ (if is_gone then place else min (place + 1) (2 ^ 64 - 1)) }
{
    if is_gone {
        place
    } else {
        place.saturating_add(1)
    }
}

// What is printed of how an own Write stands: a line, or an object.
fn own_text(
    alloc: Global,
    telling: Telling,
    standing: Standing,
    wid: Wid,
    placed: Placed,
) -> Result<String, AllocError>
    ensures { IfOk result (λ text. string_bytes text ≡ own_told telling standing wid placed) }
{
    match telling {
        Telling::News | Telling::All => standing_line(alloc, OWN, standing, wid, &Some(placed)),
        Telling::Objects => own_object(alloc, OWN, standing, wid, placed.became),
    }
}

// What is printed of an own Write that is kept no longer: a line, or an object.
fn forgotten_text(alloc: Global, telling: Telling, wid: Wid) -> Result<String, AllocError>
    ensures { IfOk result (λ text. string_bytes text ≡ forgotten_told telling wid) }
{
    match telling {
        Telling::News | Telling::All => forgotten_line(alloc, OWN, wid),
        Telling::Objects => forgotten_object(alloc, OWN, wid),
    }
}

impl PersonDesk {
    /// Keeps an own Write that was accepted, with what was reported of it, where it is kept what is final. The oldest goes where there are as many as may be,
    /// which is reported.
    pub(crate) fn keep_own<W: Write, T: Files<File = File> + Clock>(
        &mut self,
        rt: &T,
        output: &mut Output<W>,
        made: MadeWrite,
        placed: &Option<Placed>,
    ) -> Result<(), ConnectFault>
        ensures kept { OnOk result (KeepsOwn (outlook_of self.old.store.views) (own_write made placed.now) (outlook_of self.new.store.views) (account W.contents output.old) (account W.contents output.new)) }
        ensures same { IsSameDesk self.old self.new × (self.new.is_served ≡ self.old.is_served) × (self.new.store.accesses ≡ self.old.store.accesses) }
    {
        let told = match placed {
            Some(placed) => Some(placed.became),
            None => None,
        };
        let write = OwnWrite {
            wid: made.wid,
            clock: made.clock,
            told,
        };
        let gone = self.store.keep_own(write)?;
        self.store.keep_views(rt)?;
        match gone {
            Some(gone) => {
                self.tell_forgotten(output, Telling::News, gone.wid)?;
                Ok(())
            }
            None => Ok(()),
        }
    }

    // Tells that an own Write is kept no longer, which is so.
    fn tell_forgotten<W: Write>(
        &mut self,
        output: &mut Output<W>,
        telling: Telling,
        wid: Wid,
    ) -> Result<bool, ConnectFault>
        ensures printed { OnOk result (TakesBytes (account W.contents output.old) (account W.contents output.new) (forgotten_told telling wid)) }
        ensures so { IfOk result (λ is. is ≡ true) }
        ensures same { self.new ≡ self.old }
    {
        let text = forgotten_text(self.alloc, telling, wid)?;
        print(output, text.as_str())?;
        Ok(true)
    }

    // Tells how the own Write of this place stands, where there is news of it or all are reported. Whether it is kept no longer.
    fn tell_own<W: Write, T: Sockets + Clock>(
        &mut self,
        rt: &T,
        output: &mut Output<W>,
        place: usize,
        write: OwnWrite,
        telling: Telling,
    ) -> Result<bool, ConnectFault>
        ensures told { IfOk result (λ gone. TellsOwn (outlook_of self.old.store.views) place write telling gone (outlook_of self.new.store.views) (account W.contents output.old) (account W.contents output.new)) }
        ensures same { IsSameDesk self.old self.new × (self.new.is_served ≡ self.old.is_served) }
    {
        let Some(placed) = self.store.placed(rt, write.wid)? else {
            return Ok(false);
        };
        if placed.clock != write.clock {
            // Its server lost it, and gave its name to another.
            self.store.forget_own(place);
            return self.tell_forgotten(output, telling, write.wid);
        }
        let news = self.store.told(place, placed.became);
        let Some(standing) = standing_told(news, telling) else {
            return Ok(false);
        };
        self.print_standing(output, telling, standing, write.wid, placed)?;
        Ok(standing == Standing::Final)
    }

    // Prints how an own Write stands, and notes one that came to nothing for good.
    fn print_standing<W: Write>(
        &mut self,
        output: &mut Output<W>,
        telling: Telling,
        standing: Standing,
        wid: Wid,
        placed: Placed,
    ) -> Result<(), ConnectFault>
        ensures printed { OnOk result (TakesBytes (account W.contents output.old) (account W.contents output.new) (own_told telling standing wid placed)) }
        ensures void { self.new.is_void ≡ (self.old.is_void || is_void_for_good standing placed.became) }
        ensures same { (self.new.store ≡ self.old.store) × (self.new.is_served ≡ self.old.is_served) }
        ensures desk { IsSameDesk self.old self.new }
    {
        if standing == Standing::Final && placed.became == Became::Nothing {
            self.is_void = true;
        }
        let text = own_text(self.alloc, telling, standing, wid, placed)?;
        print(output, text.as_str())
    }

    // Tells how own Writes stand: all of them, or those with news.
    fn tell_each_own<W: Write, T: Sockets + Clock>(
        &mut self,
        rt: &T,
        output: &mut Output<W>,
        telling: Telling,
    ) -> Result<(), ConnectFault>
        ensures told { OnOk result (TellsFrom MOST 0 telling (outlook_of self.old.store.views) (outlook_of self.new.store.views) (account W.contents output.old) (account W.contents output.new)) }
        ensures same { IsSameDesk self.old self.new × (self.new.is_served ≡ self.old.is_served) }
    {
        let mut place = 0;
        for _ in 0..MAX_OWN_WRITES {
            let Some(write) = self.store.own_at(place) else {
                return Ok(());
            };
            let is_gone = self.tell_own(rt, output, place, write, telling)?;
            let next = place_behind(place, is_gone);
            place = next;
        }
        Ok(())
    }

    /// Asks servers what is final by now, and tells how own Writes stand; where only news is reported, and there is none, nobody is asked. What it told is
    /// kept once it is printed.
    pub(crate) fn tell_finals<W: Write, T: Files<File = File> + Sockets + Clock>(
        &mut self,
        rt: &T,
        output: &mut Output<W>,
        telling: Telling,
    ) -> Result<(), ConnectFault>
        ensures none { telling ≡ News → own_in (outlook_of self.old.store.views) ≡ [] → (result ≡ Ok tt) × (self.new ≡ self.old) × (output.new ≡ output.old) }
        ensures told { OnOk result (TellsAsLooked telling (outlook_of self.new.store.views) (account W.contents output.old) (account W.contents output.new)) }
        ensures same { IsSameDesk self.old self.new × (self.new.is_served ≡ self.old.is_served) }
    {
        if telling == Telling::News && self.store.own_at(0).is_none() {
            return Ok(());
        }
        self.store.look(rt)?;
        self.tell_each_own(rt, output, telling)?;
        self.store.keep_views(rt)
    }

    /// Tells how own Writes with news stand, by what servers told before of what they hold. What it tells is kept once it is printed.
    pub(crate) fn tell_news<W: Write, T: Files<File = File> + Sockets + Clock>(
        &mut self,
        rt: &T,
        output: &mut Output<W>,
    ) -> Result<(), ConnectFault>
        ensures told { OnOk result (TellsAsLooked News (outlook_of self.new.store.views) (account W.contents output.old) (account W.contents output.new)) }
        ensures same { IsSameDesk self.old self.new × (self.new.is_served ≡ self.old.is_served) }
    {
        self.tell_each_own(rt, output, Telling::News)?;
        self.store.keep_views(rt)
    }

    /// Waits until each own Write is final, for so many seconds at the most, and tells each as it is. It isn't what was asked for where one is left, or came to
    /// nothing.
    pub(crate) fn wait_for_finals<W: Write, T: Files<File = File> + Sockets + Clock>(
        &mut self,
        rt: &T,
        output: &mut Output<W>,
        seconds: u32,
    ) -> Result<(), ConnectFault>
        ensures served { OnOk result (self.new.is_served ≡ (self.old.is_served && not self.new.is_void && is_none (slice_get (own_in (outlook_of self.new.store.views)) 0))) }
        ensures same { IsSameDesk self.old self.new }
    {
        self.is_void = false;
        for _ in 0..u64::from(seconds) * (1_000 / REST_MILLISECONDS) {
            self.tell_finals(rt, output, Telling::News)?;
            if self.store.own_at(0).is_none() {
                break;
            }
            thread::sleep(rt, Duration::from_millis(REST_MILLISECONDS));
        }
        self.tell_finals(rt, output, Telling::All)?;
        if self.is_void || self.store.own_at(0).is_some() {
            self.is_served = false;
        }
        Ok(())
    }

    /// How the value of a key stands, where it is kept what is final: it may change yet where it isn't known which keys may.
    pub(crate) fn standing(&self, beyond: &Option<Beyond>, key: &Key) -> Option<Standing>
        ensures { result ≡ (if keeps_finals (outlook_of self.now.store.views) then Some (standing_at beyond.now key.now) else None) }
    {
        if !self.store.keeps_finals() {
            return None;
        }
        Some(match beyond {
            Some(beyond) => beyond.standing(key),
            None => Standing::Tentative,
        })
    }

    /// Tells how the value of a key stands that was read last, where it is kept what is final and that read was served.
    pub(crate) fn tell_key_standing<W: Write, T: Sockets + Clock>(
        &mut self,
        rt: &T,
        output: &mut Output<W>,
        key: &Key,
    ) -> Result<(), ConnectFault>
        ensures printed { OnOk result (TellsKeyStanding key.now self.old self.new (account W.contents output.old) (account W.contents output.new)) }
        ensures none { self.old.store.views ≡ None → (result ≡ Ok tt) × (output.new ≡ output.old) }
        ensures same { IsSameDesk self.old self.new × (self.new.is_served ≡ self.old.is_served) }
    {
        let Some(view) = self.store.read_last() else {
            return Ok(());
        };
        let at = self.store.asked_last();
        let beyond = self.store.beyond_at(rt, at, &view)?;
        let Some(standing) = self.standing(&beyond, key) else {
            return Ok(());
        };
        let line = key_standing_line(self.alloc, OWN, standing, key)?;
        print(output, line.as_str())
    }
}
