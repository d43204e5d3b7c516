//! What a breach comes to, in words.
ghost use Rattle.std.specs.Prelude.{◌≡◌, IfOk, string_bytes};
ghost use Rattle.bayou_explain.specs.Sentence.{earlier_text, guarantee_text, had_text, later_text, operation_text, reason_text, sentence_text, title_text};

use crate::refused::Cause;
use bayou_judge::{Breach, Guarantee};
use std::alloc::{AllocError, Global};

/// What the guarantee is called.
fn name_of(guarantee: Guarantee) -> &'static str
    ensures { result.now ≡ guarantee_text guarantee }
{
    match guarantee {
        Guarantee::ReadYourWrites => "Read Your Writes",
        Guarantee::MonotonicReads => "Monotonic Reads",
        Guarantee::WritesFollowReads => "Writes Follow Reads",
        Guarantee::MonotonicWrites => "Monotonic Writes",
    }
}

/// What the earlier operation is.
fn operation_word(guarantee: Guarantee) -> &'static str
    ensures { result.now ≡ operation_text guarantee }
{
    match guarantee {
        Guarantee::ReadYourWrites | Guarantee::MonotonicWrites => "Write",
        Guarantee::MonotonicReads | Guarantee::WritesFollowReads => "read",
    }
}

/// What it has to do with the Write that is missing.
fn had_word(guarantee: Guarantee) -> &'static str
    ensures { result.now ≡ had_text guarantee }
{
    match guarantee {
        Guarantee::ReadYourWrites | Guarantee::MonotonicWrites => "is",
        Guarantee::MonotonicReads | Guarantee::WritesFollowReads => "had",
    }
}

/// What is broken, in a line.
pub fn breach_title(alloc: Global, breach: &Breach) -> Result<String, AllocError>
    ensures { IfOk result (λ text. string_bytes text ≡ title_text breach.now) }
{
    let session = breach.session.index;
    let (first, second) = (breach.first, breach.second);
    let name = name_of(breach.guarantee);
    format!(in alloc; "session {session}, places {first} and {second}: {name}\n")
}

/// What the earlier operation had.
fn earlier(alloc: Global, breach: &Breach) -> Result<String, AllocError>
    ensures { IfOk result (λ text. string_bytes text ≡ earlier_text breach.now) }
{
    let (operation, had) = (operation_word(breach.guarantee), had_word(breach.guarantee));
    let first = breach.first;
    let (origin, seq) = (breach.wid.origin.index, breach.wid.seq);
    format!(in alloc; "  the {operation} at place {first} {had} {origin}:{seq}")
}

/// What the later one lacks.
fn later(alloc: Global, breach: &Breach) -> Result<String, AllocError>
    ensures { IfOk result (λ text. string_bytes text ≡ later_text breach.now.guarantee breach.now) }
{
    let second = breach.second;
    let server = breach.server.index;
    match breach.guarantee {
        Guarantee::ReadYourWrites | Guarantee::MonotonicReads => {
            format!(in alloc; "server {server} served the read at place {second} without it")
        }
        Guarantee::WritesFollowReads | Guarantee::MonotonicWrites => {
            format!(in alloc;
                "server {server} has the Write of place {second} without that one before it"
            )
        }
    }
}

/// What is wrong with the two operations, in a line.
pub fn breach_sentence(alloc: Global, breach: &Breach) -> Result<String, AllocError>
    ensures { IfOk result (λ text. string_bytes text ≡ sentence_text breach.now) }
{
    let earlier = earlier(alloc, breach)?;
    let later = later(alloc, breach)?;
    format!(in alloc; "{earlier}; {later}\n")
}

/// Which condition an entry fails, in a line.
pub fn reason_line(cause: Option<Cause<'_>>) -> &'static str
    ensures { result.now ≡ reason_text cause.entry }
{
    match cause {
        Some(Cause::Place(_)) =>
            "  its place isn't above the one of that earlier entry of its session\n",
        Some(Cause::Asks(_)) => "  its session asked for something else in that earlier entry\n",
        Some(Cause::Origin) => "  it names a Write that another server accepted\n",
        Some(Cause::Again(_)) => "  that earlier entry names the same Write\n",
        Some(Cause::Lost) => {
            "  its server's dump hasn't the Write that was acknowledged: it was lost, or the dump is older\n"
        }
        Some(Cause::Differs(_)) =>
            "  its server's dump has that Write with another clock or another past\n",
        Some(Cause::Database) =>
            "  its server never had the database that the read was served from\n",
        None => "  no line shows which condition it fails\n",
    }
}
