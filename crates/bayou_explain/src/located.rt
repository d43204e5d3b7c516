//! The lines of an audit file that tell something, each with its place: which they are, and which of them tell what.
ghost use Rattle.std.specs.Prelude.{◌≡◌, ◌↔◌, ◌<◌, All, IfOk, IfSome, IsTrue, OnOk, length};
ghost use Rattle.bayou_script.specs.Order.{lines_of};
ghost use Rattle.bayou_text.specs.Said.{audit_said};
ghost use Rattle.bayou_text.specs.Table.{Spells};
ghost use Rattle.bayou_explain.specs.Located.{IsHeldBy, IsOperationAt, StandsIn, bytes_of, tells_entry};

use crate::line::Located;
use bayou_base::{ServerId, SessionId, Wid};
use bayou_text::{AuditLine, Line, LineFault, read_line};
use std::alloc::{AllocError, Global};

impl<'a> Located<'a> {
    /// Whether it tells an entry.
    pub fn is_entry(&self) -> bool
        ensures { result ≡ tells_entry self.now }
    {
        matches!(&self.told, AuditLine::Entry { .. })
    }

    /// Whether it tells the operation at this place of the session.
    pub fn is_operation(&self, session: SessionId, place: u32) -> bool
        ensures { IsTrue result ↔ IsOperationAt session.index place (audit_said self.now.told) }
    {
        match &self.told {
            AuditLine::Entry { entry, .. } => {
                entry.session.index == session.index && entry.place == place
            }
            AuditLine::Held { .. } => false,
        }
    }

    /// Whether it tells that the server holds the Write of this name.
    pub fn is_held(&self, server: ServerId, wid: Wid) -> bool
        ensures { IsTrue result ↔ IsHeldBy server.index wid (audit_said self.now.told) }
    {
        match &self.told {
            AuditLine::Entry { .. } => false,
            AuditLine::Held {
                server: holder,
                write,
                ..
            } => holder.index == server.index && write.wid() == wid,
        }
    }
}

// The lines of a text, without their line feeds.
fn cut(alloc: Global, text: &[u8]) -> Result<Vec<&[u8]>, AllocError>
    ensures { IfOk result (λ lines. bytes_of lines.items ≡ lines_of text.now) }
{
    text.split(|byte| *byte == b'\n').collect(alloc)
}

// What a line tells, if it tells something of an audit.
fn told_in(alloc: Global, at: usize, bytes: &[u8]) -> Result<Option<Located<'_>>, AllocError>
    ensures place { IfOk result (λ found. IfSome found (λ line. (line.at ≡ at) × (line.bytes.now ≡ bytes.now))) }
    ensures told { IfOk result (λ found. IfSome found (λ line. Spells line.bytes.now (audit_said line.told))) }
{
    match read_line(alloc, bytes) {
        Ok(Line::Audit(told)) => Ok(Some(Located { at, bytes, told })),
        Err(LineFault::OutOfMemory) => Err(AllocError),
        Ok(_) | Err(_) => Ok(None),
    }
}

// Adds the line at this place, if it tells something of an audit.
fn add<'a>(
    alloc: Global,
    lines: &[&'a [u8]],
    list: &mut Vec<Located<'a>>,
    at: usize,
) -> Result<(), AllocError>
    requires { at < length lines.now }
    ensures { All (StandsIn (bytes_of lines.now)) list.old.items → OnOk result (All (StandsIn (bytes_of lines.now)) list.new.items) }
{
    let bytes: &'a [u8] = lines[at];
    if let Some(line) = told_in(alloc, at, bytes)? {
        list.push(line)?;
    }
    Ok(())
}

/// The lines of a text that tell an entry or a Write that is held, in their order.
pub fn locate(alloc: Global, text: &[u8]) -> Result<Vec<Located<'_>>, AllocError>
    ensures { IfOk result (λ list. All (StandsIn (lines_of text.now)) list.items) }
{
    let lines = cut(alloc, text)?;
    let mut list = Vec::new(alloc);
    for at in 0..lines.len() {
        add(alloc, &lines, &mut list, at)?;
    }
    Ok(list)
}
