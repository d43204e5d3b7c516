//! A person's page at a store, from the words to the exit status.
ghost use Rattle.std.specs.Prelude.{◌≡◌, ◌⊎◌, ℕ, IfErr, IfOk, List, MatchResult, Option, option_map, string_bytes};
ghost use Rattle.bayou_command.specs.Web.{web_seen};
ghost use Rattle.bayou_errands.specs.Pages.{IsNamed, places_shown};
ghost use Rattle.bayou_errands.specs.Plans.{IsPlanOfPlaces, RefusesConnection};
ghost use Rattle.bayou_tasks.specs.Told.{told_text};

use crate::connected::{kept_name, kept_plan};
use crate::keyed::{key_fault_line, named_key};
use bayou_command::Showing;
use bayou_connect::{LinesEnded, Names, SessionPlan, SessionPlanFault};
use bayou_net::Sockets;
use bayou_streams::Output;
use bayou_tasks::telling::{tell_line, told_line};
use bayou_web_live::{WebFault, serve_web};
use bayou_web_serve::{PageFault, SitePage};
use std::alloc::{AllocError, Global};
use std::fs;
use std::fs::File;
use std::io::Write;
use std::random::RandomSource;
use std::sync::Wait;
use std::thread::Threads;
use std::time::Clock;

/// The page that is to be served by the words: at whom, where and for whom, or why the words make none.
#[derive(Drop)]
pub struct Window {
    plan: Result<SessionPlan, SessionPlanFault>,
    page: Result<SitePage, PageFault>,
    key: Option<String>,
    state: String,
}

/// The exit status of words that can't be done.
const REFUSED: u8 = 2;

/// The exit status of every other fault.
const FAILED: u8 = 3;

// Whom the words name, or why nobody can be asked; want of memory is reported at once.
fn plan_in(
    alloc: Global,
    showing: &Showing<'_>,
) -> Result<Result<SessionPlan, SessionPlanFault>, AllocError>
    ensures { IfOk result (λ plan. MatchResult plan (IsPlanOfPlaces (places_shown (web_seen showing.now))) (RefusesConnection (places_shown (web_seen showing.now)))) }
{
    let plan = SessionPlan::new(
        alloc,
        showing.servers.as_slice(),
        showing.count,
        showing.asks,
        0,
        showing.timeout_seconds,
    );
    let plan = kept_plan(plan)?;
    Ok(plan)
}

// Where the page is served and for whom, or why the words say no such thing; want of memory is reported at once.
fn page_in(alloc: Global, showing: &Showing<'_>) -> Result<Result<SitePage, PageFault>, AllocError>
    ensures { IfOk result (λ page. IfOk page (IsNamed (web_seen showing.now).name)) }
{
    match SitePage::new(alloc, showing.listen, showing.name) {
        Err(PageFault::OutOfMemory) => Err(AllocError),
        page => Ok(page),
    }
}

impl Window {
    /// What the words ask for. What can't be done of them is reported when it is to be done; want of memory alone at once.
    pub fn of(alloc: Global, showing: &Showing<'_>) -> Result<Self, AllocError>
        ensures plan { IfOk result (λ window. MatchResult window.plan (IsPlanOfPlaces (places_shown (web_seen showing.now))) (RefusesConnection (places_shown (web_seen showing.now)))) }
        ensures page { IfOk result (λ window. IfOk window.page (IsNamed (web_seen showing.now).name)) }
        ensures key { IfOk result (λ window. option_map (λ name. string_bytes name) window.key ≡ (web_seen showing.now).key) }
        ensures state { IfOk result (λ window. string_bytes window.state ≡ (web_seen showing.now).state) }
    {
        Ok(Window {
            plan: plan_in(alloc, showing)?,
            page: page_in(alloc, showing)?,
            key: kept_name(alloc, showing.key)?,
            state: showing.state.to_string(alloc)?,
        })
    }
}

// The line that tells why no page is served any longer, with the file that is at fault, where one is.
fn fault_line(alloc: Global, state: &str, fault: WebFault) -> Result<String, AllocError>
    ensures { IfOk result (λ line. (file : Option (List ℕ)) × (cause : List ℕ) × (string_bytes line ≡ told_text file cause)) }
{
    let cause = fault.to_string(alloc)?;
    let file = match fault {
        WebFault::Desk(fault) if fault.is_of_state() => Some(state),
        _ => None,
    };
    told_line(alloc, file, cause.as_str())
}

/// Serves the page that was asked for, tells a fault, and gives the exit status. What a browser is sent no clause can say.
pub fn run_web<W, E, T>(
    rt: &T,
    alloc: Global,
    window: Window,
    output: &mut Output<W>,
    errors: E,
) -> u8
where
    W: Write,
    E: Write + Drop,
    T: Threads + Wait + Clock + RandomSource + fs::Files<File = File> + Sockets + Send + Sync,
    ensures status { (result ≡ 0) ⊎ (result ≡ REFUSED) ⊎ (result ≡ FAILED) }
    // Of words that can't be done nothing is served or printed.
    ensures refused { IfErr window.plan (λ _. (result ≡ REFUSED) × (output.new ≡ output.old)) }
    ensures nowhere { IfErr window.page (λ _. (result ≡ REFUSED) × (output.new ≡ output.old)) }
{
    let mut errors = errors;
    let Window {
        plan,
        page,
        key: key_path,
        state,
    } = window;
    let (plan, page) = match (plan, page) {
        (Ok(plan), Ok(page)) => (plan, page),
        (Err(fault), _) => {
            tell_line(&mut errors, format!(in alloc; "bayou: {fault}\n"));
            return REFUSED;
        }
        (Ok(_), Err(fault)) => {
            tell_line(&mut errors, format!(in alloc; "bayou: {fault}\n"));
            return REFUSED;
        }
    };
    let key = match named_key(rt, alloc, key_path.as_deref()) {
        Ok(key) => key,
        Err(fault) => {
            let line = key_fault_line(alloc, key_path.as_deref(), fault);
            tell_line(&mut errors, line);
            return FAILED;
        }
    };
    let names = Names {
        state: Some(state.as_str()),
        book: None,
    };
    match serve_web(rt, alloc, &plan, key, names, page, output, &mut errors) {
        Ok(LinesEnded::Served | LinesEnded::Unserved) => 0,
        Ok(LinesEnded::Refused) => REFUSED,
        Err(fault) => {
            tell_line(&mut errors, fault_line(alloc, state.as_str(), fault));
            FAILED
        }
    }
}
