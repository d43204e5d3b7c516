//! What is seen of a store.
ghost use Rattle.std.specs.Prelude.{◌≡◌, ◌≤◌, ◌++◌, ◌∷◌, [], ◌<◌, false, true, Any, IfOk, IfSome, None, OnOk, Some, length, map};
ghost use Rattle.bayou_web_state.specs.Asked.{IsAsked};
ghost use Rattle.bayou_web_state.specs.Notes.{Notes, kept_notices};
ghost use Rattle.bayou_web_state.specs.declared.seen.Own.{Own as OwnOne};
ghost use Rattle.bayou_base.specs.declared.limits.TheConstants.{SERVERS as NUMBER};

use crate::parts::{
    name_of, put_all_own, put_flag, put_notices, put_servers, put_session, put_text, put_told,
};
use crate::row::Row;
use crate::rows::put_rows;
use bayou_base::{Asks, ServerId, Vector, Wid};
use bayou_wire::Became;
use json::Writer;
use std::alloc::{AllocError, Global};
use std::net::SocketAddr;

/// How many notices are kept at the most. One more, and the oldest goes.
pub const MAX_NOTICES: usize = 64;

/// A server, as it was asked last.
#[derive(Clone, Copy, Debug)]
pub struct ServerSeen {
    pub id: ServerId,
    pub address: SocketAddr,
    /// Whether it told what it holds.
    pub is_up: bool,
    /// What it held, as it told last.
    pub view: Option<Vector>,
    /// How many Writes it may hold, if it told that.
    pub limit: Option<u32>,
}

impl ServerSeen {
    // As it is now; what it held, and may hold, as it told last.
    fn after(self, before: &ServerSeen) -> ServerSeen
        ensures { (result.id ≡ self.id) × (result.address ≡ self.address) × (result.is_up ≡ self.is_up) }
    {
        ServerSeen {
            view: self.view.or(before.view),
            limit: self.limit.or(before.limit),
            ..self
        }
    }
}

// The text, kept.
fn kept_text(alloc: Global, text: Option<&str>) -> Result<Option<String>, AllocError> {
    match text {
        None => Ok(None),
        Some(text) => Ok(Some(text.to_string(alloc)?)),
    }
}

/// An own Write that wasn't reported as final yet, and what it was last reported to have become, if it was.
#[derive(Clone, Copy, Debug, PartialEq, Eq)]
pub struct OwnTold {
    pub wid: Wid,
    pub told: Option<Became>,
}

/// The same, and the line that made it, where that is known.
#[derive(Debug, Drop)]
pub struct Own {
    pub write: OwnTold,
    pub line: Option<String>,
}

/// Something that a person learns once.
#[derive(Debug, Drop)]
pub struct NewsItem {
    /// Which it is, from 1 on.
    pub number: u64,
    pub text: String,
    /// The line that made the own Write of which it tells, where that is known.
    pub line: Option<String>,
}

/// What the session of a person asks for, has read and written.
#[derive(Clone, Copy, Debug)]
pub struct SeenSession {
    pub asks: Asks,
    pub reads: Vector,
    pub writes: Vector,
}

/// What is seen of a store, as servers told it last.
#[derive(Drop)]
pub struct StoreSeen {
    /// How many counts of a vector are given.
    servers_number: u8,
    /// As whom the person claims.
    name: Option<String>,
    rows: Vec<Row>,
    /// Which server told the rows, and what it held.
    told: Option<(ServerId, Vector)>,
    /// Whether the rows were reported as servers were asked last.
    is_current: bool,
    servers: Vec<ServerSeen>,
    own: Vec<Own>,
    session: Option<SeenSession>,
    notices: Vec<NewsItem>,
    /// How many notices there were.
    noticed: u64,
    ghost number: { servers_number ≤ NUMBER },
}

impl StoreSeen {
    ghost use Rattle.bayou_web_state.specs.Seen.{Shows, head_tokens, person_tokens, seen_tokens, store_tokens, table_tokens};

    /// Nothing was seen yet.
    pub fn new(alloc: Global, servers_number: u8, name: Option<String>) -> Self
        requires { servers_number ≤ NUMBER }
        ensures person { (result.servers_number ≡ servers_number) × (result.name ≡ name) }
        ensures rows { (result.rows.items ≡ []) × (result.told ≡ None) × (result.is_current ≡ false) }
        ensures rest { (result.servers.items ≡ []) × (result.own.items ≡ []) × (result.session ≡ None) × (result.notices.items ≡ []) × (result.noticed ≡ 0) }
    {
        StoreSeen {
            servers_number,
            name,
            rows: Vec::new(alloc),
            told: None,
            is_current: false,
            servers: Vec::new(alloc),
            own: Vec::new(alloc),
            session: None,
            notices: Vec::new(alloc),
            noticed: 0,
        }
    }

    /// Whether the rows were reported as servers were asked last.
    pub fn is_current(&self) -> bool
        ensures { result ≡ self.now.is_current }
    {
        self.is_current
    }

    /// These are the rows now, which the server told that held this.
    pub fn rows_now(&mut self, rows: Vec<Row>, server: ServerId, vector: Vector)
        ensures { self.new ≡ record self.old { rows = rows; told = Some (server, vector); is_current = true } }
    {
        self.rows = rows;
        self.told = Some((server, vector));
        self.is_current = true;
    }

    /// No server told the rows as they were asked last. What was seen before stays.
    pub fn rows_untold(&mut self)
        ensures { self.new ≡ record self.old { is_current = false } }
    {
        self.is_current = false;
    }

    /// This is the session now.
    pub fn session_now(&mut self, session: Option<SeenSession>)
        ensures { self.new ≡ record self.old { session = session } }
    {
        self.session = session;
    }

    // The own Write of this name, if it is one already.
    fn own_of(&self, wid: Wid) -> Option<&Own> {
        self.own.iter().find(|own| own.write.wid == wid)
    }

    /// The own Writes are these now. The line made those that weren't there before, if one is there.
    pub fn own_now(
        &mut self,
        alloc: Global,
        own: &[OwnTold],
        line: Option<&str>,
    ) -> Result<(), AllocError>
        ensures own { OnOk result (map (λ (one : OwnOne). one.write) self.new.own.items ≡ own.now) }
        ensures same { self.new ≡ record self.old { own = self.new.own } }
    {
        let mut now = Vec::with_capacity(alloc, own.len())?;
        for write in own {
            let line = match self.own_of(write.wid) {
                Some(before) => before.line.as_deref(),
                None => line,
            };
            now.push(Own {
                write: *write,
                line: kept_text(alloc, line)?,
            })?;
        }
        self.own = now;
        Ok(())
    }

    // The place of the server, if it was asked before.
    fn place_of(&self, id: ServerId) -> Option<usize>
        ensures { IfSome result (λ at. at < length self.now.servers.items) }
    {
        self.servers.iter().position(|server| server.id == id)
    }

    /// The server told this as it was asked last, or nothing. What it held, and may hold, stays as it told last.
    pub fn server_now(
        &mut self,
        id: ServerId,
        address: SocketAddr,
        view: Option<Vector>,
        limit: Option<u32>,
    ) -> Result<(), AllocError>
        ensures told { OnOk result (Any (IsAsked id address view) self.new.servers.items) }
        ensures same { self.new ≡ record self.old { servers = self.new.servers } }
    {
        let now = ServerSeen {
            id,
            address,
            is_up: view.is_some(),
            view,
            limit,
        };
        match self.place_of(id) {
            None => self.servers.push(now)?,
            Some(at) => {
                let before = self.servers[at];
                self.servers[at] = now.after(&before);
            }
        }
        Ok(())
    }

    // The line of the own Write that a notice names by its third word, where that is known.
    fn line_named(&self, alloc: Global, text: &str) -> Result<Option<String>, AllocError> {
        let Some(name) = text.split(' ').nth(2) else {
            return Ok(None);
        };
        for own in &self.own {
            let written = name_of(alloc, own.write.wid)?;
            if written.as_str() == name {
                return kept_text(alloc, own.line.as_deref());
            }
        }
        Ok(None)
    }

    // Makes room for one more notice: where there are as many as are kept, the oldest goes.
    fn make_room(&mut self)
        ensures room { self.new.notices.items ≡ kept_notices self.old.notices.items }
        ensures same { self.new ≡ record self.old { notices = self.new.notices } }
    {
        if self.notices.len() >= MAX_NOTICES {
            self.notices.remove(0);
        }
    }

    /// One more notice, the last of so many.
    pub fn note(&mut self, alloc: Global, text: &str) -> Result<(), AllocError>
        ensures noted { OnOk result (Notes self.old.notices.items self.new.notices.items self.new.noticed text.now) }
        ensures same { self.new ≡ record self.old { notices = self.new.notices; noticed = self.new.noticed } }
    {
        let line = self.line_named(alloc, text)?;
        let text = text.to_string(alloc)?;
        self.make_room();
        self.noticed = self.noticed.saturating_add(1);
        let number = self.noticed;
        self.notices.push(NewsItem { number, text, line })?;
        Ok(())
    }

    // As whom the person claims, and of what the rows are.
    fn put_head(&self, out: &mut Writer) -> Result<(), AllocError>
        ensures put { OnOk result (out.new.tokens ≡ out.old.tokens ++ head_tokens self.now) }
        ensures before { out.new.before ≡ out.old.before }
    {
        put_text(out, "name", &self.name)?;
        put_flag(out, "current", self.is_current)?;
        put_told(out, &self.told, self.servers_number)
    }

    // The servers, and the own Writes.
    #[tactic(auto, unfolding(crate::specs::Seen::store_tokens))]
    fn put_store(&self, out: &mut Writer, alloc: Global) -> Result<(), AllocError>
        ensures put { OnOk result (out.new.tokens ≡ out.old.tokens ++ store_tokens self.now) }
        ensures before { out.new.before ≡ out.old.before }
    {
        out.key("servers")?;
        put_servers(out, alloc, &self.servers, self.servers_number)?;
        out.key("own")?;
        put_all_own(out, alloc, &self.own)
    }

    // The session, and the notices.
    #[tactic(auto, unfolding(crate::specs::Seen::person_tokens))]
    fn put_person(&self, out: &mut Writer) -> Result<(), AllocError>
        ensures put { OnOk result (out.new.tokens ≡ out.old.tokens ++ person_tokens self.now) }
        ensures before { out.new.before ≡ out.old.before }
    {
        out.key("session")?;
        put_session(out, &self.session, self.servers_number)?;
        out.key("notices")?;
        put_notices(out, &self.notices)
    }

    // The rows whose keys begin so.
    #[tactic(auto, unfolding(crate::specs::Seen::table_tokens))]
    fn put_table(&self, out: &mut Writer, prefix: &str) -> Result<(), AllocError>
        ensures put { OnOk result (out.new.tokens ≡ out.old.tokens ++ table_tokens prefix.now self.now) }
        ensures before { out.new.before ≡ out.old.before }
    {
        out.key("rows")?;
        out.begin_array()?;
        put_rows(out, prefix, &self.rows)?;
        out.end_array()
    }

    // What is seen, with the rows whose keys begin so at its end.
    fn put_all(&self, out: &mut Writer, alloc: Global, prefix: &str) -> Result<(), AllocError>
        ensures put { OnOk result (out.new.tokens ≡ out.old.tokens ++ seen_tokens prefix.now self.now) }
        ensures before { out.new.before ≡ out.old.before }
    {
        out.begin_object()?;
        self.put_head(out)?;
        self.put_store(out, alloc)?;
        self.put_person(out)?;
        self.put_table(out, prefix)?;
        out.end_object()
    }

    /// The text of JSON that tells what is seen, with the rows whose keys begin so.
    pub fn text(&self, alloc: Global, prefix: &str) -> Result<Vec<u8>, AllocError>
        ensures { IfOk result (λ text. Shows prefix.now self.now text.items) }
    {
        let mut out = Writer::new(Vec::new(alloc));
        self.put_all(&mut out, alloc, prefix)?;
        Ok(out.into_inner())
    }
}
