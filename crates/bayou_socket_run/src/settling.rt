//! The end of a run over a network: what its books come to, and the verdict.
ghost use Rattle.std.specs.Prelude.{◌≡◌, ◌≤◌, [], IfErr, IfOk, List, OnOk, vec_len};
ghost use Rattle.bayou_base.specs.declared.entry.Entry.{Entry};
ghost use Rattle.bayou_judge.specs.Answers.{Judges};
ghost use Rattle.bayou_judge.specs.History.{lists_of};
ghost use Rattle.bayou_print.specs.Fault.{ended_status, verdict_status};
ghost use Rattle.bayou_print.specs.Waiting.{Gathers, stage};
ghost use Rattle.bayou_socket_run.specs.Books.{books_text, line_of, lines_of};
ghost use Rattle.bayou_socket_run.specs.Inner.Telling.{Tells};
ghost use Rattle.bayou_print.specs.Turns.{EndsWriting};

use bayou_answers::Answer;
use bayou_audit::{AuditBook, Ledgers, Totals};
use bayou_base::ServerId;
use bayou_fleet::{FleetFault, FleetSettled};
use bayou_judge::{BadEvidence, Verdict, judge, lend_dumps};
use bayou_node::NodeSettled;
use bayou_print::{Ended, RunFault, Waiting, settled_line, write_answer};
use bayou_script::Servers;
use bayou_streams::Output;
use std::alloc::Global;
use std::io::Write;
use std::sync::Wait;

/// What is left of a run once nobody is served any more.
#[derive(Drop)]
pub(crate) struct Books {
    totals: Totals,
    /// What the books of each server come to, from server 0 on.
    nodes: Vec<NodeSettled>,
    verdict: Result<Verdict, BadEvidence>,
}

/// Takes the books of all servers, and judges what was filed by what the servers hold.
pub(crate) fn settle<K: Ledgers, T: Wait>(
    rt: &T,
    alloc: Global,
    book: AuditBook<K>,
    fleet: FleetSettled,
    servers: Servers,
) -> Result<Books, FleetFault>
    requires { vec_len fleet.dumps ≡ servers.count }
    ensures nodes { IfOk result (λ books. books.nodes.items ≡ fleet.nodes.items) }
    ensures judged { IfOk result (λ books. (entries : List Entry) × Judges servers.count entries (lists_of fleet.dumps.items) books.verdict) }
{
    let totals = book.totals(rt);
    let entries = book.entries(rt, alloc)?;
    let FleetSettled { dumps, nodes } = fleet;
    let verdict = judge(alloc, servers.count, &entries, &lend_dumps(&dumps))?;
    Ok(Books {
        totals,
        nodes,
        verdict,
    })
}

/// Writes what the books of one server come to.
fn write_one<W: Write>(
    alloc: Global,
    server: ServerId,
    nodes: &[NodeSettled],
    output: &mut Output<W>,
    waiting: &mut Waiting,
) -> Result<(), RunFault>
    ensures prints { OnOk result (Gathers (stage W.contents output.old waiting.old) (stage W.contents output.new waiting.new) (line_of nodes.now server.index) []) }
    ensures told { Tells result (stage W.contents output.old waiting.old) (stage W.contents output.new waiting.new) }
    ensures ended { IfErr result (EndsWriting output.new.channel.write_failed output.new.channel.turns_left) }
    ensures ready { OnOk result (output.old.channel.turns_left ≤ output.new.channel.turns_left) }
{
    let Some(settled) = nodes.get(usize::from(server.index)) else {
        return Ok(());
    };
    let line = settled_line(alloc, server, settled)?;
    waiting.print(output, line.as_bytes())
}

/// Writes what the books of each server come to.
fn write_nodes<W: Write>(
    alloc: Global,
    servers: Servers,
    nodes: &[NodeSettled],
    output: &mut Output<W>,
    waiting: &mut Waiting,
) -> Result<(), RunFault>
    ensures prints { OnOk result (Gathers (stage W.contents output.old waiting.old) (stage W.contents output.new waiting.new) (lines_of servers.count nodes.now) []) }
    ensures told { Tells result (stage W.contents output.old waiting.old) (stage W.contents output.new waiting.new) }
    ensures ended { IfErr result (EndsWriting output.new.channel.write_failed output.new.channel.turns_left) }
    ensures ready { OnOk result (output.old.channel.turns_left ≤ output.new.channel.turns_left) }
{
    for index in 0..servers.count {
        write_one(alloc, ServerId { index }, nodes, output, waiting)?;
    }
    Ok(())
}

/// Writes the totals, what the books of each server come to, and the verdict.
pub(crate) fn write_books<W: Write>(
    alloc: Global,
    servers: Servers,
    books: Books,
    output: &mut Output<W>,
    waiting: &mut Waiting,
) -> Result<Ended, RunFault>
    ensures prints { IfOk result (λ ended. (ended_status ended ≡ verdict_status books.verdict)
        × Gathers (stage W.contents output.old waiting.old) (stage W.contents output.new waiting.new) (books_text servers.count books.totals books.nodes.items books.verdict) []) }
    ensures told { Tells result (stage W.contents output.old waiting.old) (stage W.contents output.new waiting.new) }
    ensures ended { IfErr result (EndsWriting output.new.channel.write_failed output.new.channel.turns_left) }
    ensures ready { OnOk result (output.old.channel.turns_left ≤ output.new.channel.turns_left) }
{
    let Books {
        totals,
        nodes,
        verdict,
    } = books;
    let counted = Answer::Counted(totals);
    write_answer(alloc, servers.count, &counted, output, waiting)?;
    write_nodes(alloc, servers, nodes.as_slice(), output, waiting)?;
    let judged = Answer::Judged(verdict);
    write_answer(alloc, servers.count, &judged, output, waiting)?;
    Ok(Ended::of(&judged))
}
