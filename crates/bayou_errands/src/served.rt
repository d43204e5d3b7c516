//! Servers that live, from the words to the exit status.
ghost use Rattle.std.specs.Prelude.{◌≡◌, ◌≢◌, ◌⊎◌, ◌↔◌, ℕ, true, Err, IfErr, IfOk, List, MatchResult, None, Some, option_map, string_bytes};
ghost use Rattle.bayou_command.specs.Serve.{service_seen};
ghost use Rattle.bayou_serve.specs.Faults.{IsOfJournal};
ghost use Rattle.bayou_serve.specs.Lived.{PrintsLife};
ghost use Rattle.bayou_errands.specs.Plans.{IsPlanOf, IsUnguarded, RefusesService, label_name};
ghost use Rattle.bayou_tasks.specs.Told.{told_text};
ghost use Rattle.bayou_socket_run.specs.Damage.{journal_name};
ghost use Rattle.bayou_streams.specs.Account.{account};
ghost use Rattle.bayou_serve.specs.declared.plan.ServicePlanFault.TheVariants.{OutOfMemory, TwoBeginnings};

use crate::keyed::{key_fault_line, named_key};
use bayou_command::Serving;
use bayou_net::Sockets;
use bayou_serve::{
    Beginning, ServeFault, ServiceHabits, ServicePaths, ServicePlan, ServicePlanFault, Teller,
    serve_plan,
};
use bayou_streams::Output;
use bayou_tasks::telling::told_line;
use std::alloc::{AllocError, Global};
use std::fs;
use std::fs::File;
use std::io::{Read, Write};
use std::random::RandomSource;
use std::sync::Wait;
use std::thread::Threads;
use std::time::Clock;

/// A server that is to live: the file of its journal, and what it is to do, or why its words make no plan.
#[derive(Drop)]
pub struct Service {
    path: String,
    /// The file that says of which store that journal is.
    label: String,
    key: Option<String>,
    /// Whether strangers may reach it, and nothing keeps them out.
    is_unguarded: bool,
    plan: Result<ServicePlan, ServicePlanFault>,
}

/// The warning as a server begins that strangers may reach, and that nothing keeps out.
const UNGUARDED: &str =
    "bayou: --anyone without --key: WHOEVER REACHES THIS PORT CAN READ, WRITE AND FILL THE STORE\n";

/// The exit status of words that can't be done.
const REFUSED: u8 = 2;

/// The exit status of every other fault.
const FAILED: u8 = 3;

// The plan, or why there is none; but want of memory is reported at once.
fn kept_plan(
    plan: Result<ServicePlan, ServicePlanFault>,
) -> Result<Result<ServicePlan, ServicePlanFault>, AllocError>
    ensures same { IfOk result (λ kept. kept ≡ plan) }
    ensures known { IfOk result (λ kept. IfErr kept (λ fault. fault ≢ OutOfMemory)) }
{
    match plan {
        Err(ServicePlanFault::OutOfMemory) => Err(AllocError),
        plan => Ok(plan),
    }
}

// Why the words make no plan, or the plan that they make.
fn plan_in(
    alloc: Global,
    serving: &Serving<'_>,
) -> Result<Result<ServicePlan, ServicePlanFault>, AllocError>
    ensures asked { IfOk result (λ plan. MatchResult plan (IsPlanOf (service_seen serving.now)) (RefusesService (service_seen serving.now))) }
    ensures two { serving.now.is_new ≡ true → serving.now.is_restored ≡ true → IfOk result (λ plan. plan ≡ Err TwoBeginnings) }
{
    let Some(beginning) = Beginning::of(serving.is_new, serving.is_restored) else {
        return Ok(Err(ServicePlanFault::TwoBeginnings));
    };
    let habits = ServiceHabits {
        limit: serving.limit,
        every_seconds: serving.every_seconds,
        connections: serving.connections,
        idle_seconds: serving.idle_seconds,
        until_input_ends: serving.until_input_ends,
        beginning,
    };
    let plan = ServicePlan::new(
        alloc,
        serving.id,
        serving.servers,
        serving.listen,
        serving.serves_anyone,
        serving.peers.as_slice(),
        serving.left_out.as_slice(),
        habits,
    );
    let plan = kept_plan(plan)?;
    Ok(plan)
}

impl Service {
    /// What the words ask for. What can't be done of them is reported when it is to be served; want of memory alone at once.
    pub fn of(alloc: Global, serving: &Serving<'_>) -> Result<Self, AllocError>
        ensures path { IfOk result (λ service. string_bytes service.path ≡ journal_name serving.now.folder.now serving.now.id) }
        ensures label { IfOk result (λ service. string_bytes service.label ≡ label_name serving.now.folder.now serving.now.id) }
        ensures key { IfOk result (λ service. option_map (λ name. string_bytes name) service.key ≡ (service_seen serving.now).key) }
        ensures unguarded { IfOk result (λ service. service.is_unguarded ≡ true ↔ IsUnguarded (service_seen serving.now)) }
        ensures asked { IfOk result (λ service. MatchResult service.plan (IsPlanOf (service_seen serving.now)) (RefusesService (service_seen serving.now))) }
        ensures two { serving.now.is_new ≡ true → serving.now.is_restored ≡ true → IfOk result (λ service. service.plan ≡ Err TwoBeginnings) }
    {
        let (folder, id) = (serving.folder, serving.id);
        let key = match serving.key {
            None => None,
            Some(name) => Some(name.to_string(alloc)?),
        };
        Ok(Service {
            path: format!(in alloc; "{folder}/server-{id}.journal")?,
            label: format!(in alloc; "{folder}/server-{id}.store")?,
            key,
            is_unguarded: serving.serves_anyone && serving.key.is_none(),
            plan: plan_in(alloc, serving)?,
        })
    }
}

// The line that tells a fault, with the journal's file where that is at fault.
fn fault_line(alloc: Global, path: &str, fault: ServeFault) -> Result<String, AllocError>
    ensures journal { IsOfJournal fault → IfOk result (λ line. (cause : List ℕ) × (string_bytes line ≡ told_text (Some path.now) cause)) }
    ensures others { ¬ IsOfJournal fault → IfOk result (λ line. (cause : List ℕ) × (string_bytes line ≡ told_text None cause)) }
{
    let cause = fault.to_string(alloc)?;
    if fault.is_of_journal() {
        return told_line(alloc, Some(path), cause.as_str());
    }
    told_line(alloc, None, cause.as_str())
}

// Tells the line that was made, or that memory ran out.
fn tell_line<E: Write, T: Wait>(rt: &T, teller: &Teller<E>, made: Result<String, AllocError>) {
    match made {
        Ok(line) => teller.tell(rt, line.as_str()),
        Err(_) => teller.tell(rt, "bayou: memory\n"),
    }
}

/// Serves what was asked for, tells a fault, and gives the exit status.
pub fn run_served<I, W, E, T>(
    rt: &T,
    alloc: Global,
    service: Service,
    input: I,
    output: &mut Output<W>,
    errors: E,
) -> u8
where
    I: Read + Send + Drop,
    W: Write,
    E: Write + Send + Drop,
    T: Threads + Wait + Clock + fs::Files<File = File> + RandomSource + Sockets + Send + Sync,
    ensures status { (result ≡ 0) ⊎ (result ≡ REFUSED) ⊎ (result ≡ FAILED) }
    // Of words that can't be done nothing is served or printed.
    ensures refused { IfErr service.plan (λ _. (result ≡ REFUSED) × (output.new ≡ output.old)) }
    ensures taken { IfOk service.plan (λ _. (result ≡ 0) ⊎ (result ≡ FAILED)) }
    // It ends well only where the server lived, and told so to its end.
    ensures lived { result ≡ 0 → IfOk service.plan (λ plan. PrintsLife plan.id.index plan.servers (account W.contents output.old) (account W.contents output.new)) }
{
    let teller = Teller::new(errors);
    let Service {
        path,
        label,
        key: key_path,
        is_unguarded,
        plan,
    } = service;
    let plan = match plan {
        Ok(plan) => plan,
        Err(fault) => {
            tell_line(rt, &teller, format!(in alloc; "bayou: {fault}\n"));
            return REFUSED;
        }
    };
    let key = match named_key(rt, alloc, key_path.as_deref()) {
        Ok(key) => key,
        Err(fault) => {
            let line = key_fault_line(alloc, key_path.as_deref(), fault);
            tell_line(rt, &teller, line);
            return FAILED;
        }
    };
    if is_unguarded {
        teller.tell(rt, UNGUARDED);
    }
    let paths = ServicePaths {
        journal: path.as_str(),
        label: label.as_str(),
    };
    match serve_plan(rt, alloc, paths, key, &plan, input, output, &teller) {
        Ok(()) => 0,
        Err(fault) => {
            tell_line(rt, &teller, fault_line(alloc, path.as_str(), fault));
            FAILED
        }
    }
}
