//! A page that is served, from its start to its end.
use crate::fault::WebFault;
use crate::looking::Looking;
use bayou_connect::{ConnectFault, LinesEnded, Names, OpenDesk, SessionPlan};
use bayou_greeting::StoreKey;
use bayou_net::{Door, Sockets, attend, shut};
use bayou_print::write_text;
use bayou_streams::Output;
use bayou_web::{PageDoor as WebDoor, Site};
use bayou_web_serve::{AtCounter, SiteHall, SitePage, SiteReception, milliseconds};
use bayou_web_state::{LineDone, StoreSeen, done_text};
use std::alloc::{AllocError, Global};
use std::fs::{File, Files};
use std::hash::RandomState;
use std::io::Write;
use std::net::TcpListener;
use std::random::RandomSource;
use std::sync::Wait;
use std::sync::atomic::Ordering;
use std::thread::Threads;
use std::time::Clock;

/// How many connections are served at once. A browser opens six to one address.
const CONNECTIONS: usize = 12;

/// How many bytes a token has, drawn at random.
const TOKEN_BYTES: usize = 16;

/// How many milliseconds pass between two times that servers are asked.
const LOOK_MILLISECONDS: u64 = 1_000;

/// For how many milliseconds servers are asked after somebody looked last.
const WATCHED_MILLISECONDS: u64 = 10_000;

/// How many milliseconds a line is waited for, before it is looked whether servers are to be asked.
const WAIT_MILLISECONDS: u32 = 100;

/// The status of a fault.
const FAILED: u8 = 3;

// A word that nobody guesses.
fn new_token<T: RandomSource>(rt: &T, alloc: Global) -> Result<String, WebFault> {
    let mut bytes = [0; TOKEN_BYTES];
    if rt.fill_bytes(&mut bytes).is_err() {
        return Err(WebFault::Random);
    }
    Ok(hex::encode(alloc, bytes.as_slice())?)
}

// A site for each connection that is served at once.
fn sites_at<'a, T: Wait + Clock>(
    rt: &'a T,
    alloc: Global,
    hall: &'a SiteHall,
    address: &str,
    token: &str,
) -> Result<Vec<Site<AtCounter<'a, T>>>, AllocError> {
    let mut sites = Vec::with_capacity(alloc, CONNECTIONS)?;
    for _ in 0..CONNECTIONS {
        let door = WebDoor::new(alloc, address, token)?;
        sites.push(Site::new(alloc, door, AtCounter::new(rt, hall)))?;
    }
    Ok(sites)
}

// Whether servers are to be asked now: somebody looked a short while ago, and they weren't asked a shorter one ago.
fn is_due(now: u64, asked: u64, looked: u64) -> bool {
    now.saturating_sub(asked) >= LOOK_MILLISECONDS
        && now.saturating_sub(looked) <= WATCHED_MILLISECONDS
}

// Does a line that was handed in, and answers whoever waits for it.
fn do_next<T: Files<File = File> + Sockets + Wait + Clock>(
    looking: &mut Looking<'_, T>,
    line: String,
) -> Result<(), ConnectFault> {
    let (rt, alloc, hall) = (looking.rt, looking.alloc, looking.hall);
    let fault = match looking.do_line(line.as_str()) {
        Ok(text) => {
            hall.counter.answer(rt, text);
            return Ok(());
        }
        Err(fault) => fault,
    };
    answer_fault(rt, alloc, hall, &fault);
    Err(fault)
}

// Does each line that is handed in, and asks servers as long as somebody looks, until the desk is at fault.
fn attend_desk<T: Files<File = File> + Sockets + Wait + Clock>(
    looking: &mut Looking<'_, T>,
) -> WebFault {
    let (rt, hall) = (looking.rt, looking.hall);
    let mut asked = milliseconds(rt);
    if let Err(fault) = looking.look() {
        return WebFault::Desk(fault);
    }
    for _ in rt.forever() {
        if let Some(line) = hall.counter.next(rt, WAIT_MILLISECONDS) {
            if let Err(fault) = do_next(looking, line) {
                return WebFault::Desk(fault);
            }
            // What the line made is to be seen at once.
            asked = 0;
        }
        let now = milliseconds(rt);
        if is_due(now, asked, hall.looked.load(Ordering::SeqCst)) {
            asked = now;
            if let Err(fault) = looking.look() {
                return WebFault::Desk(fault);
            }
        }
    }
    WebFault::Threads
}

// Tells whoever handed in the last line that the desk is at fault, as far as there is memory for that.
fn answer_fault<T: Wait>(rt: &T, alloc: Global, hall: &SiteHall, fault: &ConnectFault) {
    let Ok(told) = format!(in alloc; "bayou: {fault}\n") else {
        return;
    };
    let done = LineDone {
        printed: &[],
        told: told.as_bytes(),
        status: FAILED,
    };
    if let Ok(text) = done_text(alloc, &done) {
        hall.counter.answer(rt, text);
    }
}

// Serves at the listener until the desk is at fault.
fn serve_at<'a, T>(
    rt: &'a T,
    alloc: Global,
    listener: &'a TcpListener,
    hall: &'a SiteHall,
    sites: Vec<Site<AtCounter<'a, T>>>,
    desk: OpenDesk,
) -> WebFault
where
    T: Files<File = File> + Threads + Wait + Clock + RandomSource + Sockets + Send + Sync,
{
    let (Ok(copy), Ok(keys)) = (listener.try_clone(), RandomState::new(rt)) else {
        return WebFault::Random;
    };
    let reception = SiteReception::new(rt, keys);
    let door = Door {
        host: &reception,
        listener,
        stop: &hall.stop,
        is_short: &hall.is_short,
    };
    let ended = attend(rt, alloc, &door, sites, move |unserved| {
        let fault = if unserved >= CONNECTIONS {
            WebFault::Threads
        } else {
            let mut looking = Looking {
                rt,
                alloc,
                hall,
                desk,
            };
            attend_desk(&mut looking)
        };
        hall.counter.close(rt);
        hall.stop.store(true, Ordering::SeqCst);
        let _ = shut(copy);
        fault
    });
    match &ended {
        Ok((_, fault)) => *fault,
        Err(_) => WebFault::Memory,
    }
}

/// Serves the page of a desk at the servers of the plan, and prints its address with a token that nobody guesses, until the desk is at fault. With the key of a
/// store a server that doesn't prove that it has that key is asked nothing. Where the plan asks for something else than the session did when it was kept, that is
/// reported to `errors`, and nothing is served: then it ends well, as refused.
pub fn serve_web<W, E, T>(
    rt: &T,
    alloc: Global,
    plan: &SessionPlan,
    key: Option<StoreKey>,
    names: Names<'_>,
    page: SitePage,
    output: &mut Output<W>,
    errors: &mut E,
) -> Result<LinesEnded, WebFault>
where
    W: Write,
    E: Write,
    T: Files<File = File> + Threads + Wait + Clock + RandomSource + Sockets + Send + Sync,
{
    let SitePage { listen, name } = page;
    let Ok(listener) = TcpListener::bind(rt, listen) else {
        return Err(WebFault::NotListening);
    };
    let Ok(listen) = listener.local_addr() else {
        return Err(WebFault::NotListening);
    };
    let Some(desk) = OpenDesk::open(rt, alloc, plan, key, names, errors)? else {
        return Ok(LinesEnded::Refused);
    };
    let address = listen.to_string(alloc)?;
    let token = new_token(rt, alloc)?;
    let hall = SiteHall::new(StoreSeen::new(alloc, plan.servers, name));
    let sites = sites_at(rt, alloc, &hall, address.as_str(), token.as_str())?;
    let line = format!(in alloc; "web at http://{address}/#{token}\n")?;
    if write_text(output, line.as_bytes()).is_err() {
        return Err(WebFault::Output);
    }
    Err(serve_at(rt, alloc, &listener, &hall, sites, desk))
}
