//! A desk that stays open, for who does lines one by one, and shows what is seen from there.
ghost use Rattle.std.specs.Prelude.{◌≡◌, IfErr, IfOk, IfSome, MatchBool, map, option_map};
ghost use Rattle.bayou_connect.specs.Desks.{IsSameDesk, IsSameSeat};
ghost use Rattle.bayou_connect.specs.Finals.{keeps_finals, outlook_of, own_in};
ghost use Rattle.bayou_connect.specs.Open.{DoesAlone, EndsAlone, IsDeskOf, wrong_of};
ghost use Rattle.bayou_connect.specs.Own.{TellsAsLooked};
ghost use Rattle.bayou_connect.specs.Seeing.{Sees};
ghost use Rattle.bayou_connect.specs.Sessions.{kept_of, own_session};
ghost use Rattle.bayou_connect.specs.declared.fault.ConnectFault.TheVariants.{Memory};
ghost use Rattle.bayou_connect.specs.declared.finals.Telling.TheVariants.{News};
ghost use Rattle.bayou_streams.specs.Account.{account};

use crate::connecting::{
    LinesEnded, Names, ended_by, opened_desk, tell_full, tell_strangers, tell_wrong,
};
use crate::desk::{OWN, PersonDesk};
use crate::doing::{LineBecame, Wrong, do_line};
use crate::fault::ConnectFault;
use crate::plan::{ServerPlace, SessionPlan};
use crate::seeing::SeenRows;
use bayou_base::Vector;
use bayou_greeting::StoreKey;
use bayou_net::Sockets;
use bayou_outlook::OwnWrite;
use bayou_session::Session;
use bayou_streams::Output;
use std::alloc::{AllocError, Global};
use std::fs::{File, Files};
use std::io::Write;
use std::random::RandomSource;
use std::sync::Wait;
use std::time::Clock;

/// A server of the plan, and how many Writes it may hold, if it told that as it was greeted last.
#[derive(Clone, Copy, Debug)]
pub struct SeenServer {
    pub place: ServerPlace,
    pub limit: Option<u32>,
}

/// A person's desk at a store, with the session of short lines. What is kept of it is kept as [`connect_plan`](crate::connect_plan) keeps it.
#[derive(Drop)]
pub struct OpenDesk {
    desk: PersonDesk,
    /// What each server told that it holds, by its place in the plan, as it was asked last; none before that.
    views: Vec<Option<Vector>>,
    /// How many lines came. At the greatest count it stays.
    lines: u64,
}

// Does a line, whatever was served before, and tells what became of it.
fn do_alone<W: Write, T: Files<File = File> + Sockets + Wait + Clock>(
    rt: &T,
    desk: &mut PersonDesk,
    output: &mut Output<W>,
    line: &[u8],
) -> Result<LineBecame, ConnectFault>
    ensures { IfOk result (DoesAlone line.now desk.old desk.new (account W.contents output.old) (account W.contents output.new)) }
{
    desk.begin_anew();
    do_line(rt, desk, output, line)
}

// What is wrong with the line, if it couldn't be done.
fn wrong_in(became: LineBecame) -> Option<Wrong>
    ensures { result ≡ wrong_of became }
{
    match became {
        LineBecame::Wrong(wrong) => Some(wrong),
        LineBecame::Done | LineBecame::Quit | LineBecame::Ended => None,
    }
}

impl OpenDesk {
    /// A desk at the servers of the plan. With the key of a store a server that doesn't prove that it has that key is asked nothing. What sessions read and
    /// wrote is kept in a file, and what they were served goes into another, where these have names. `None` where the plan asks for something else than the
    /// session did when it was kept: that is reported to `errors`, and nothing is asked.
    pub fn open<E, T>(
        rt: &T,
        alloc: Global,
        plan: &SessionPlan,
        key: Option<StoreKey>,
        names: Names<'_>,
        errors: &mut E,
    ) -> Result<Option<Self>, ConnectFault>
    where
        E: Write,
        T: Files<File = File> + RandomSource,
        ensures { IfOk result (λ one. IfSome one (λ one. IsDeskOf plan.now one.desk)) }
    {
        let Some(desk) = opened_desk(rt, alloc, plan, key, names, errors)? else {
            return Ok(None);
        };
        Ok(Some(OpenDesk {
            desk,
            views: Vec::new(alloc),
            lines: 0,
        }))
    }

    /// Does a line, prints what is to be printed of it, and keeps what it changed. It ends as the lines of [`connect_plan`](crate::connect_plan) would, were it
    /// the only one; a `quit` does nothing. What is wrong with it, who answers in place of a server, and that a log is full, go to `errors`. After a fault
    /// the desk isn't to be used any more: what was done may not be kept.
    pub fn do_line<W, E, T>(
        &mut self,
        rt: &T,
        line: &[u8],
        output: &mut Output<W>,
        errors: &mut E,
    ) -> Result<LinesEnded, ConnectFault>
    where
        W: Write,
        E: Write,
        T: Files<File = File> + Sockets + Wait + Clock,
        ensures { IfOk result (EndsAlone line.now self.old.desk (account W.contents output.old) (account W.contents output.new)) }
    {
        self.lines = self.lines.saturating_add(1);
        let became = do_alone(rt, &mut self.desk, output, line)?;
        let is_served = self.desk.is_served;
        let wrong = wrong_in(became);
        self.tell(errors, wrong)?;
        self.desk.store.keep_views(rt)?;
        Ok(ended_by(wrong.is_some(), is_served))
    }

    // Tells what is wrong with the line, if anything is, and what isn't printed of what was done.
    fn tell<E: Write>(&mut self, errors: &mut E, wrong: Option<Wrong>) -> Result<(), ConnectFault>
        ensures same { IsSameDesk self.old.desk self.new.desk }
        ensures fault { IfErr result (λ fault. fault ≡ Memory) }
    {
        tell_strangers(&mut self.desk, errors)?;
        tell_full(&mut self.desk, errors);
        match wrong {
            Some(wrong) => tell_wrong(self.desk.alloc, errors, self.lines, wrong),
            None => Ok(()),
        }
    }

    /// Reports, as far as it can, who answered in place of a server, where it didn't yet.
    pub fn tell_strangers<E: Write>(&mut self, errors: &mut E) -> Result<(), ConnectFault>
        ensures same { IsSameDesk self.old.desk self.new.desk }
        ensures fault { IfErr result (λ fault. fault ≡ Memory) }
    {
        tell_strangers(&mut self.desk, errors)
    }

    /// Asks each server that isn't silent what it holds, and learns how far Writes are final. Where one holds something else than it did as it was asked last,
    /// or isn't reached any more, or is again, it prints news of own Writes, and tells that there is something to see.
    pub fn look<W, T>(&mut self, rt: &T, output: &mut Output<W>) -> Result<bool, ConnectFault>
    where
        W: Write,
        T: Files<File = File> + Sockets + Clock,
        ensures told { IfOk result (λ is_new. MatchBool is_new
            (TellsAsLooked News (outlook_of self.new.desk.store.views) (account W.contents output.old) (account W.contents output.new)) (output.new ≡ output.old)) }
        // No session reads or writes anything by it.
        ensures same { IsSameDesk self.old.desk self.new.desk }
    {
        let views = self.desk.store.look_around(rt)?;
        if views == self.views {
            return Ok(false);
        }
        self.views = views;
        self.desk.tell_news(rt, output)?;
        Ok(true)
    }

    /// Each key that has a value, with that and how it stands, where it is known, as the first server has them that has what the session asks for; `None`
    /// where no server told all. The session has read them then.
    pub fn rows<T: Files<File = File> + Sockets + Wait + Clock>(
        &mut self,
        rt: &T,
    ) -> Result<Option<SeenRows>, ConnectFault>
        ensures seen { IfOk result (λ seen. IfSome seen (Sees (keeps_finals (outlook_of self.new.desk.store.views)))) }
        ensures same { IsSameSeat self.old.desk self.new.desk }
    {
        self.desk.seen_rows(rt)
    }

    /// The servers, in the order of the plan.
    pub fn servers(&self) -> Result<Vec<SeenServer>, AllocError>
        ensures { IfOk result (λ servers. map (λ server. server.place) servers.items ≡ map (λ access. access.place) self.now.desk.store.accesses.items) }
    {
        let mut servers = Vec::with_capacity(self.desk.alloc, self.desk.store.len())?;
        for access in &self.desk.store.accesses {
            let limit = match access.known() {
                Some(known) => Some(known.limit),
                None => None,
            };
            let place = access.place;
            servers.push(SeenServer { place, limit })?;
        }
        Ok(servers)
    }

    /// What each server told that it holds as it was asked last, in the order of the plan; nothing before that.
    pub fn views(&self) -> &[Option<Vector>]
        ensures { result.now ≡ self.now.views.items }
    {
        &self.views
    }

    /// The own Writes that weren't reported as final yet, the oldest first.
    pub fn own(&self) -> &[OwnWrite]
        ensures { result.now ≡ own_in (outlook_of self.now.desk.store.views) }
    {
        let Some(views) = &self.desk.store.views else {
            return &[];
        };
        match views.outlook() {
            Some(outlook) => outlook.own(),
            None => &[],
        }
    }

    /// The session of short lines: what it asks for, has read and written.
    pub fn session(&self) -> Option<Session>
        ensures { result ≡ option_map (λ kept. kept.session) (kept_of self.now.desk.store.sessions.items own_session) }
    {
        let kept = self.desk.store.session(OWN)?;
        Some(*kept.session())
    }
}
