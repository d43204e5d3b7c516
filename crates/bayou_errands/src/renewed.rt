//! Servers whose store goes on as a new one, from the words to the exit status.
ghost use Rattle.std.specs.Prelude.{◌≡◌, ◌≢◌, ◌⊎◌, ◌<◌, ℕ, IfErr, IfOk, IfSome, List, MatchResult, Option, Some, string_bytes, true};
ghost use Rattle.bayou_command.specs.Renew.{renewal_seen};
ghost use Rattle.bayou_renew.specs.declared.plan.RenewalPlanFault.TheVariants.{OutOfMemory};
ghost use Rattle.bayou_errands.specs.Renewals.{IsWishOf, PrintsRenewed, RefusesRenewal, elsewhere_text, renewed_text, too_many_text};
ghost use Rattle.bayou_tasks.specs.Told.{told_text};
ghost use Rattle.bayou_socket_run.specs.Damage.{journal_name};
ghost use Rattle.bayou_streams.specs.Account.{TakesBytes, account};

use bayou_base::Vector;
use bayou_command::Renewing;
use bayou_print::{Counts, write_text};
use bayou_renew::{
    NotRenewed, ReadingFault, RenewFault, RenewalPaths, RenewalPlan, RenewalPlanFault, Renewed,
    renew_journal,
};
use bayou_streams::Output;
use bayou_tasks::telling::{tell_line, told_line};
use std::alloc::{AllocError, Global};
use std::fs;
use std::fs::File;
use std::io::Write;
use std::random::RandomSource;

/// A journal that is to be made of another: the files of both, and what is wanted, or why the words make no plan.
#[derive(Drop)]
pub struct Renewal {
    old: String,
    new: String,
    plan: Result<RenewalPlan, RenewalPlanFault>,
}

/// The exit status of words that can't be done.
const REFUSED: u8 = 2;

/// The exit status of every other fault.
const FAILED: u8 = 3;

// The plan, or why there is none; but want of memory is reported at once.
fn kept_plan(
    plan: Result<RenewalPlan, RenewalPlanFault>,
) -> Result<Result<RenewalPlan, RenewalPlanFault>, AllocError>
    ensures same { IfOk result (λ kept. kept ≡ plan) }
    ensures known { IfOk result (λ kept. IfErr kept (λ fault. fault ≢ OutOfMemory)) }
{
    match plan {
        Err(RenewalPlanFault::OutOfMemory) => Err(AllocError),
        plan => Ok(plan),
    }
}

// Why the words make no plan, or the plan that they make.
fn plan_in(
    alloc: Global,
    renewing: &Renewing<'_>,
) -> Result<Result<RenewalPlan, RenewalPlanFault>, AllocError>
    ensures { IfOk result (λ plan. MatchResult plan (IsWishOf (renewal_seen renewing.now)) (RefusesRenewal (renewal_seen renewing.now))) }
{
    if renewing.folder == renewing.to {
        return Ok(Err(RenewalPlanFault::SameFolder));
    }
    let plan = RenewalPlan::new(
        alloc,
        renewing.id,
        renewing.servers,
        renewing.servers_then,
        renewing.at,
        renewing.without.as_slice(),
        renewing.is_full,
    );
    let plan = kept_plan(plan)?;
    Ok(plan)
}

impl Renewal {
    /// What the words ask for. What can't be done of them is reported when it is to be done; want of memory alone at once.
    pub fn of(alloc: Global, renewing: &Renewing<'_>) -> Result<Self, AllocError>
        ensures old { IfOk result (λ renewal. string_bytes renewal.old ≡ journal_name renewing.now.folder.now renewing.now.id) }
        ensures new { IfOk result (λ renewal. string_bytes renewal.new ≡ journal_name renewing.now.to.now renewing.now.id) }
        ensures asked { IfOk result (λ renewal. MatchResult renewal.plan (IsWishOf (renewal_seen renewing.now)) (RefusesRenewal (renewal_seen renewing.now))) }
    {
        let (folder, to, id) = (renewing.folder, renewing.to, renewing.id);
        Ok(Renewal {
            old: format!(in alloc; "{folder}/server-{id}.journal")?,
            new: format!(in alloc; "{to}/server-{id}.journal")?,
            plan: plan_in(alloc, renewing)?,
        })
    }
}

// The report of a server that holds this in the place of what it must hold.
fn elsewhere_cause(alloc: Global, plan: &RenewalPlan, held: &Vector) -> Result<String, AllocError>
    ensures { IfOk result (λ cause. string_bytes cause ≡ elsewhere_text plan.now held.now) }
{
    let servers = plan.servers;
    let holds = Counts {
        vector: held,
        servers,
    };
    let wanted = Counts {
        vector: &plan.wish.at,
        servers,
    };
    format!(in alloc; "it holds {holds}, and not {wanted} as --at says")
}

// The report of a database that takes so many Writes.
fn too_many_cause(alloc: Global, plan: &RenewalPlan, number: usize) -> Result<String, AllocError>
    ensures { IfOk result (λ cause. string_bytes cause ≡ too_many_text plan.now number) }
{
    let most = plan.wish.most;
    format!(in alloc;
        "its database takes {number} Writes, more than {most}: leave keys out by --without, or call it with --full"
    )
}

// The line that tells the cause, with the file that is at fault, where one is.
fn cause_line(alloc: Global, file: Option<&str>, cause: &str) -> Result<String, AllocError>
    ensures { IfOk result (λ line. (file : Option (List ℕ)) × (cause : List ℕ) × (string_bytes line ≡ told_text file cause)) }
{
    told_line(alloc, file, cause)
}

// The line that tells what is wrong with the old journal, or with what is wanted of it.
fn old_line(
    alloc: Global,
    path: &str,
    plan: &RenewalPlan,
    fault: &RenewFault,
) -> Result<String, AllocError>
    ensures { IfOk result (λ line. (file : Option (List ℕ)) × (cause : List ℕ) × (string_bytes line ≡ told_text file cause)) }
{
    match fault {
        RenewFault::OutOfMemory | RenewFault::Unread(ReadingFault::Memory) => {
            cause_line(alloc, None, "memory")
        }
        RenewFault::Elsewhere(held) => {
            let cause = elsewhere_cause(alloc, plan, held)?;
            cause_line(alloc, Some(path), cause.as_str())
        }
        RenewFault::TooMany(number) => {
            let cause = too_many_cause(alloc, plan, *number)?;
            cause_line(alloc, Some(path), cause.as_str())
        }
        RenewFault::Unread(fault) => {
            let cause = fault.to_string(alloc)?;
            cause_line(alloc, Some(path), cause.as_str())
        }
    }
}

// The line that tells why there is no new journal, with the file that is at fault.
fn fault_line(
    alloc: Global,
    paths: RenewalPaths<'_>,
    plan: &RenewalPlan,
    fault: &NotRenewed,
) -> Result<String, AllocError>
    ensures { IfOk result (λ line. (file : Option (List ℕ)) × (cause : List ℕ) × (string_bytes line ≡ told_text file cause)) }
{
    match fault {
        NotRenewed::Old(fault) => old_line(alloc, paths.old, plan, fault),
        NotRenewed::New(fault) => {
            let cause = fault.to_string(alloc)?;
            cause_line(alloc, Some(paths.new), cause.as_str())
        }
    }
}

// Tells that the new journal is there, with these digits for the digest of its Writes.
fn write_renewed<W: Write>(
    alloc: Global,
    output: &mut Output<W>,
    plan: &RenewalPlan,
    renewed: &Renewed,
    digits: &str,
) -> Result<bool, AllocError>
    ensures { IfOk result (λ is_printed. is_printed ≡ true → TakesBytes (account W.contents output.old) (account W.contents output.new) (renewed_text plan.now renewed.now digits.now)) }
{
    let (id, keys) = (plan.id.index, renewed.keys);
    let writes = renewed.server.receipts().len();
    let held = Counts {
        vector: &plan.wish.at,
        servers: plan.servers,
    };
    let line = format!(in alloc;
        "renewed {id} at {held} keys {keys} writes {writes} digest {digits}\n"
    )?;
    Ok(write_text(output, line.as_bytes()).is_ok())
}

// Tells that the new journal is there.
fn print_renewed<W: Write>(
    alloc: Global,
    output: &mut Output<W>,
    plan: &RenewalPlan,
    renewed: &Renewed,
) -> Result<bool, AllocError>
    ensures { IfOk result (λ is_printed. is_printed ≡ true → PrintsRenewed plan.now (account W.contents output.old) (account W.contents output.new)) }
{
    let digest = renewed.digest;
    let digits = format!(in alloc; "{digest:016x}")?;
    write_renewed(alloc, output, plan, renewed, digits.as_str())
}

// A run that nobody else has, as far as chance goes.
fn drawn_run<T: RandomSource>(rt: &T) -> Option<u32>
    ensures { IfSome result (λ run. 0 < run) }
{
    let mut bytes = [0; 4];
    if rt.fill_bytes(&mut bytes).is_err() {
        return None;
    }
    Some(u32::from_be_bytes(bytes).max(1))
}

/// Makes the journal that was asked for, tells a fault, and gives the exit status. What a file has no clause can say.
pub fn run_renewed<W, E, T>(
    rt: &T,
    alloc: Global,
    renewal: Renewal,
    output: &mut Output<W>,
    errors: E,
) -> u8
where
    W: Write,
    E: Write + Drop,
    T: fs::Files<File = File> + RandomSource,
    ensures status { (result ≡ 0) ⊎ (result ≡ REFUSED) ⊎ (result ≡ FAILED) }
    // Of words that can't be done nothing is made or printed.
    ensures refused { IfErr renewal.plan (λ _. (result ≡ REFUSED) × (output.new ≡ output.old)) }
    ensures taken { IfOk renewal.plan (λ _. (result ≡ 0) ⊎ (result ≡ FAILED)) }
    ensures made { result ≡ 0 → IfOk renewal.plan (λ plan. PrintsRenewed plan (account W.contents output.old) (account W.contents output.new)) }
{
    let mut errors = errors;
    let Renewal { old, new, plan } = renewal;
    let plan = match plan {
        Ok(plan) => plan,
        Err(fault) => {
            tell_line(&mut errors, format!(in alloc; "bayou: {fault}\n"));
            return REFUSED;
        }
    };
    let Some(run) = drawn_run(rt) else {
        tell_line(&mut errors, told_line(alloc, None, "no random number"));
        return FAILED;
    };
    let paths = RenewalPaths {
        old: old.as_str(),
        new: new.as_str(),
    };
    let renewed = match renew_journal(rt, alloc, &plan, paths, run) {
        Ok(renewed) => renewed,
        Err(fault) => {
            tell_line(&mut errors, fault_line(alloc, paths, &plan, &fault));
            return FAILED;
        }
    };
    match print_renewed(alloc, output, &plan, &renewed) {
        Ok(true) => 0,
        Ok(false) => {
            tell_line(&mut errors, told_line(alloc, None, "output"));
            FAILED
        }
        Err(error) => {
            tell_line(&mut errors, Err(error));
            FAILED
        }
    }
}
