//! Whom a person is at, as the words of the command line say it.
ghost use Rattle.std.specs.Prelude.{◌≡◌, ◌≢◌, ◌<◌, ◌≤◌, All, AllPairs, Any, IfErr, IfOk, IfSome, IsSomeAnd, MatchOption, false, length, map, true};
ghost use Rattle.std.specs.List.{AllZip, list_all};
ghost use Rattle.std.specs.Option.{option_copied};
ghost use Rattle.bayou_base.specs.declared.limits.TheConstants.{SERVERS as NUMBER};
ghost use Rattle.bayou_base.specs.declared.server.ServerId.{ServerId as ServerNumber};
ghost use Rattle.bayou_connect.specs.declared.plan.ServerPlace.{ServerPlace as Where};
ghost use Rattle.bayou_connect.specs.Plans.{AskedBy, AsksBoth, Differ, IsLeast, IsWrong, SaysPlace, asks_said, is_among, is_guarantee, parts_of};
ghost use Rattle.bayou_person.specs.Wishes.{ReadsServer};

use bayou_base::{Asks, ServerId};
use std::alloc::{AllocError, Global};
use std::net::SocketAddr;
use thiserror::Error;

/// A server of the store, and where it listens.
#[derive(Clone, Copy, Debug)]
pub struct ServerPlace {
    pub id: ServerId,
    pub address: SocketAddr,
}

/// Which servers are asked, and what a session asks for that wasn't opened by a line.
#[derive(Drop)]
pub struct SessionPlan {
    /// In the order in which a short line tries them.
    pub places: Vec<ServerPlace>,
    /// How many counts of a vector are printed.
    pub servers: u8,
    /// Whether `list`, `servers` and `mine` print an object a line.
    pub is_json: bool,
    /// What session 0 asks for. `None` where the words don't say: what it asked for when it was kept, else nothing.
    pub asks: Option<Asks>,
    /// How long a short line is tried again that no server serves.
    pub wait_seconds: u32,
    /// How long a server has for its connection and its whole reply.
    pub timeout_seconds: u32,
    pub ghost some: { 0 < length places.items },
    pub ghost among: { All (λ place. place.id.index < servers) places.items },
    pub ghost once: { AllPairs (λ one other. one.id ≢ other.id) places.items },
    pub ghost number: { (0 < servers) × (servers ≤ NUMBER) },
}

/// Why the words of a command line make no plan.
#[derive(Clone, Copy, Debug, PartialEq, Eq, Error)]
pub enum SessionPlanFault {
    #[error("--server takes I=ADDRESS:PORT, with an address of numbers, I being a server's number")]
    NoServer,
    #[error("--server names a server twice")]
    SameServer,
    #[error("--servers is above each server's number")]
    TooFewServers,
    #[error("--session takes any of ryw, mr, wfr and mw, with commas between them, or all, or none")]
    NoAsks,
    #[error("memory")]
    OutOfMemory,
}

impl From<AllocError> for SessionPlanFault {
    ghost use Rattle.std.specs.Prelude.{◌≡◌};
    ghost use Rattle.bayou_connect.specs.declared.plan.SessionPlanFault.TheVariants.{OutOfMemory};

    ghost from_gives = { λ _ fault. fault ≡ OutOfMemory };

    fn from(_error: AllocError) -> SessionPlanFault {
        SessionPlanFault::OutOfMemory
    }
}

const ALL: Asks = Asks {
    ryw: true,
    mr: true,
    wfr: true,
    mw: true,
};

pub(crate) const NONE: Asks = Asks {
    ryw: false,
    mr: false,
    wfr: false,
    mw: false,
};

// Whether the word is one of the four guarantees.
fn is_one_of_four(word: &str) -> bool
    ensures { result ≡ is_guarantee word.now }
{
    word == "ryw" || word == "mr" || word == "wfr" || word == "mw"
}

// Whether each part of the text between its commas is one of the four.
fn are_guarantees(text: &str) -> bool
    ensures { result ≡ list_all is_guarantee (parts_of text.now) }
{
    text.split(',').all(|part| is_one_of_four(part))
}

// Whether the word is one of the parts of the text between its commas.
fn has_part(text: &str, word: &str) -> bool
    ensures { result ≡ is_among (parts_of text.now) word.now }
{
    text.split(',').any(|part| part == word)
}

// What the text asks for, if it says that.
fn asks_in(text: &str) -> Option<Asks>
    ensures { result ≡ asks_said text.now }
{
    if text == "all" {
        return Some(ALL);
    }
    if text == "none" {
        return Some(NONE);
    }
    if !are_guarantees(text) {
        return None;
    }
    Some(Asks {
        ryw: has_part(text, "ryw"),
        mr: has_part(text, "mr"),
        wfr: has_part(text, "wfr"),
        mw: has_part(text, "mw"),
    })
}

/// The text that asks for just this.
pub(crate) fn asks_text(asks: Asks) -> &'static str
    ensures { asks_said result.now ≡ Some asks }
{
    match (asks.ryw, asks.mr, asks.wfr, asks.mw) {
        (false, false, false, false) => "none",
        (false, false, false, true) => "mw",
        (false, false, true, false) => "wfr",
        (false, false, true, true) => "wfr,mw",
        (false, true, false, false) => "mr",
        (false, true, false, true) => "mr,mw",
        (false, true, true, false) => "mr,wfr",
        (false, true, true, true) => "mr,wfr,mw",
        (true, false, false, false) => "ryw",
        (true, false, false, true) => "ryw,mw",
        (true, false, true, false) => "ryw,wfr",
        (true, false, true, true) => "ryw,wfr,mw",
        (true, true, false, false) => "ryw,mr",
        (true, true, false, true) => "ryw,mr,mw",
        (true, true, true, false) => "ryw,mr,wfr",
        (true, true, true, true) => "all",
    }
}

/// What a session asks for that the words may say and that may have been kept: `None` where these are two.
pub(crate) fn asks_of_both(said: Option<Asks>, kept: Option<Asks>) -> Option<Asks>
    ensures { MatchOption result (Differ said kept) (AsksBoth said kept) }
{
    match (said, kept) {
        (None, None) => Some(NONE),
        (Some(asks), None) | (None, Some(asks)) => Some(asks),
        (Some(said), Some(kept)) => { if said == kept { Some(kept) } else { None } }
    }
}

// The server whose number this is, if there may be one.
fn id_of(number: &str) -> Option<ServerId>
    ensures { MatchOption result ((id : ServerNumber) → ¬ (ReadsServer number.now id)) (ReadsServer number.now) }
{
    let Ok(index) = number.parse::<u8>() else {
        return None;
    };
    ServerId::new(index)
}

// The server that a word says, if it says one.
fn place_of(word: &str) -> Option<ServerPlace>
    ensures { MatchOption result ((place : Where) → ¬ (SaysPlace word.now place)) (SaysPlace word.now) }
{
    let Some((number, address)) = word.split_once('=') else {
        return None;
    };
    let Some(id) = id_of(number) else {
        return None;
    };
    let Ok(address) = address.parse::<SocketAddr>() else {
        return None;
    };
    Some(ServerPlace { id, address })
}

// Whether one of the places is that server's.
fn has_place(places: &[ServerPlace], id: ServerId) -> bool
    ensures none { result ≡ false → All (λ place. place.id ≢ id) places.now }
    ensures some { result ≡ true → Any (λ place. place.id.index ≡ id.index) places.now }
{
    places.iter().any(|place| place.id == id)
}

// The servers that the words say, none of them twice.
fn places_of(alloc: Global, words: &[&str]) -> Result<Vec<ServerPlace>, SessionPlanFault>
    ensures number { IfOk result (λ places. length places.items ≡ length words.now) }
    ensures said { IfOk result (λ places. AllZip (λ word place. SaysPlace word.now place) words.now places.items) }
    ensures once { IfOk result (λ places. AllPairs (λ one other. one.id ≢ other.id) places.items) }
    ensures refused { IfErr result (IsWrong (map (λ word. word.now) words.now) None None) }
{
    let mut places: Vec<ServerPlace> = Vec::new(alloc);
    for word in words {
        let Some(place) = place_of(word) else {
            return Err(SessionPlanFault::NoServer);
        };
        if has_place(&places, place.id) {
            return Err(SessionPlanFault::SameServer);
        }
        if places.push(place).is_err() {
            return Err(SessionPlanFault::OutOfMemory);
        }
    }
    Ok(places)
}

// How many servers there are at the least, where these are some of them.
fn least_count(places: &[ServerPlace]) -> u8
    ensures within { result ≤ NUMBER }
    ensures least { IsLeast result places.now }
{
    let mut least: u8 = 0;
    for place in places {
        least = least.max(place.id.index + 1);
    }
    least
}

// Whether each of them is below the number.
fn are_below(places: &[ServerPlace], servers: u8) -> bool
    ensures all { result ≡ true → All (λ place. place.id.index < servers) places.now }
    ensures some { result ≡ false → Any (λ place. servers ≤ place.id.index) places.now }
{
    places.iter().all(|place| place.id.index < servers)
}

// How many servers there are: so many as are said, else as their numbers need.
fn count_of(count: Option<u8>, places: &[ServerPlace]) -> u8
    requires { IfSome count (λ count. count ≤ NUMBER) }
    ensures within { result ≤ NUMBER }
    ensures count { MatchOption count (IsLeast result places.now) (λ number. result ≡ number) }
{
    match count {
        Some(count) => count,
        None => least_count(places),
    }
}

// What a text asks for, where there is one.
fn asks_if_said(text: Option<&str>) -> Result<Option<Asks>, SessionPlanFault>
    ensures asks { IfOk result (AskedBy (option_copied text.entry)) }
    ensures refused { IfErr result (λ fault. (fault ≡ SessionPlanFault.NoAsks) × IsSomeAnd (option_copied text.entry) (λ text. asks_said text ≡ None)) }
{
    let Some(text) = text else {
        return Ok(None);
    };
    match asks_in(text) {
        None => Err(SessionPlanFault::NoAsks),
        asks => Ok(asks),
    }
}

impl SessionPlan {
    /// The plan that these words make, or the first of them that can't be done: servers, in the order in which they are tried, and how
    /// many counts are printed, which is as many as their numbers need where it isn't said. No line prints an object.
    pub fn new(
        alloc: Global,
        servers: &[&str],
        count: Option<u8>,
        asks: Option<&str>,
        wait_seconds: u32,
        timeout_seconds: u32,
    ) -> Result<SessionPlan, SessionPlanFault>
        requires { IfSome count (λ count. count ≤ NUMBER) }
        ensures said { IfOk result (λ plan. AllZip (λ word place. SaysPlace word.now place) servers.now plan.places.items) }
        ensures same { IfOk result (λ plan. (plan.wait_seconds ≡ wait_seconds) × (plan.timeout_seconds ≡ timeout_seconds) × (length plan.places.items ≡ length servers.now)) }
        ensures servers { IfOk result (λ plan. MatchOption count (IsLeast plan.servers plan.places.items) (λ number. plan.servers ≡ number)) }
        ensures asks { IfOk result (λ plan. AskedBy (option_copied asks.entry) plan.asks) }
        ensures json { IfOk result (λ plan. plan.is_json ≡ false) }
        ensures refused { IfErr result (IsWrong (map (λ word. word.now) servers.now) count (option_copied asks.entry)) }
    {
        let places = places_of(alloc, servers)?;
        if places.is_empty() {
            return Err(SessionPlanFault::NoServer);
        }
        let servers = count_of(count, &places);
        if !are_below(&places, servers) {
            return Err(SessionPlanFault::TooFewServers);
        }
        let asks = asks_if_said(asks)?;
        Ok(SessionPlan {
            places,
            servers,
            is_json: false,
            asks,
            wait_seconds,
            timeout_seconds,
        })
    }

    /// The same plan, but that `list`, `servers` and `mine` print an object a line if `is_json`, and else lines as ever.
    pub fn printing(self, is_json: bool) -> SessionPlan
        ensures { result ≡ record self { is_json = is_json } }
    {
        let mut plan = self;
        plan.is_json = is_json;
        plan
    }
}
