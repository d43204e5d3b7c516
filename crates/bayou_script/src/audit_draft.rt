ghost use Rattle.std.specs.Prelude.{◌≡◌, ◌<◌, ◌≤◌, [], ℕ, List, Option, Some, map, MatchResult, length};
ghost use Rattle.bayou_base.specs.declared.limits.TheConstants.{SERVERS};

use crate::audit::AuditFile;
use crate::fault::InputRefusal;
use crate::text::Front;
use bayou_base::{Entry, MAX_ENTRIES, ServerId};
use bayou_lang::RestingWrite;
use bayou_text::{AuditLine, Line};
use std::alloc::Global;

/// The front of an audit file, while its lines are checked.
#[derive(Drop)]
pub struct AuditDraft {
    /// How many servers there are: none before the first line that isn't empty.
    count: u8,
    entries: Vec<Entry>,
    /// What each server holds.
    dumps: Vec<Vec<RestingWrite>>,
    ghost count_in_range: { count ≤ SERVERS },
    ghost one_each: { length dumps.items ≡ count },
}

impl AuditDraft {
    ghost use Rattle.bayou_text.specs.Said.{Said, audit_said, entry as entry_line, held as held_line, servers as servers_line};
    ghost use Rattle.bayou_script.specs.declared.fault.InputRefusal.TheVariants.{OutOfMemory};
    ghost use Rattle.bayou_script.specs.AuditFile.{audit_order};
    ghost use Rattle.bayou_script.specs.Inner.AuditDraft.{IsAuditDraftOf};
    ghost use Rattle.bayou_script.specs.Order.{HasAdded};

    /// Starts so many servers, which hold nothing yet, where none were started.
    fn start(&mut self, alloc: Global, count: u8) -> Result<bool, InputRefusal>
        requires { (0 < count) × (count ≤ SERVERS) }
        ensures { (number : ℕ) (front : List Said) (most : Option ℕ) → IsAuditDraftOf self.old front
            → MatchResult result (HasAdded audit_order IsAuditDraftOf number front (servers_line count most) self.new) (λ refusal. refusal ≡ OutOfMemory) }
    {
        if self.count > 0 {
            return Ok(false);
        }
        let mut dumps = Vec::with_capacity(alloc, usize::from(count))?;
        for _ in 0..count {
            dumps.push_reserved(Vec::new(alloc));
        }
        self.count = count;
        self.dumps = dumps;
        Ok(true)
    }

    /// Adds the entry, whose vector, if it has one, has so many counts.
    fn add_entry(&mut self, entry: Entry, counts: Option<u8>) -> Result<bool, InputRefusal>
        ensures { (number : ℕ) (front : List Said) → IsAuditDraftOf self.old front
            → MatchResult result (HasAdded audit_order IsAuditDraftOf number front (entry_line entry counts) self.new) (λ refusal. refusal ≡ OutOfMemory) }
    {
        if entry.server.index >= self.count
            || counts.unwrap_or(self.count) != self.count
            || self.entries.len() >= MAX_ENTRIES
        {
            return Ok(false);
        }
        self.entries.push(entry)?;
        Ok(true)
    }

    /// Adds the Write, whose vector has so many counts, to what the server holds.
    fn add_held(
        &mut self,
        server: ServerId,
        write: RestingWrite,
        counts: u8,
    ) -> Result<bool, InputRefusal>
        ensures { (number : ℕ) (front : List Said) → IsAuditDraftOf self.old front
            → MatchResult result (HasAdded audit_order IsAuditDraftOf number front (held_line server.index write counts) self.new) (λ refusal. refusal ≡ OutOfMemory) }
    {
        if server.index >= self.count
            || write.wid().origin.index >= self.count
            || counts != self.count
        {
            return Ok(false);
        }
        let dump = &mut self.dumps[usize::from(server.index)];
        dump.push(write)?;
        Ok(true)
    }

    /// Adds what a line after the first says, if that has its place.
    fn add_told(&mut self, told: AuditLine) -> Result<bool, InputRefusal>
        ensures { (number : ℕ) (front : List Said) → IsAuditDraftOf self.old front
            → MatchResult result (HasAdded audit_order IsAuditDraftOf number front (audit_said told) self.new) (λ refusal. refusal ≡ OutOfMemory) }
    {
        match told {
            AuditLine::Entry { entry, counts } => self.add_entry(entry, counts),
            AuditLine::Held {
                server,
                write,
                counts,
            } => self.add_held(server, write, counts),
        }
    }
}

impl Front for AuditDraft {
    ghost use Rattle.bayou_script.specs.AuditFile.{IsAuditFile, audit_order, evidence_of};
    ghost use Rattle.bayou_script.specs.Inner.AuditDraft.{IsAuditDraftOf};

    type Text = AuditFile;

    ghost order = { audit_order };

    ghost keeps = { IsAuditDraftOf };

    ghost says = { λ lines file. IsAuditFile lines (evidence_of file) };

    ghost tells = { λ file. Unit {0} };

    fn new(alloc: Global) -> Self {
        AuditDraft {
            count: 0,
            entries: Vec::new(alloc),
            dumps: Vec::new(alloc),
        }
    }

    fn add(&mut self, alloc: Global, _number: u64, line: Line) -> Result<bool, InputRefusal> {
        match line {
            Line::Servers { count, .. } => self.start(alloc, count),
            Line::Audit(told) => self.add_told(told),
            Line::Command(_) => Ok(false),
        }
    }

    fn finish(self) -> Result<AuditFile, InputRefusal> {
        if self.count == 0 {
            return Err(InputRefusal::out_of_place(1));
        }
        Ok(AuditFile {
            count: self.count,
            entries: self.entries,
            dumps: self.dumps,
        })
    }
}
