//! The Write of a dump at which the dump can't be true.
ghost use Rattle.std.specs.Prelude.{◌≡◌, ◌≤◌, MatchOption, length};
ghost use Rattle.std.specs.List.{filter};
ghost use Rattle.bayou_explain.specs.Dumped.{IsHeldNumber, tells_held};

use crate::explained::{ShownLine, shown_as};
use crate::line::Located;
use bayou_base::ServerId;
use bayou_text::AuditLine;

// Whether the line tells a Write that this server holds.
fn is_of(line: &Located<'_>, server: ServerId) -> bool
    ensures { result ≡ tells_held server.index line.now }
{
    match &line.told {
        AuditLine::Entry { .. } => false,
        AuditLine::Held { server: holder, .. } => holder.index == server.index,
    }
}

/// The line of the Write at this place, from 0 on, of the server's dump. It is `None` where the dump has fewer.
pub fn held_at<'a>(lines: &[Located<'a>], server: ServerId, place: usize) -> Option<ShownLine<'a>>
    ensures { MatchOption result (length (filter (tells_held server.index) lines.now) ≤ place) (IsHeldNumber lines.now server.index place) }
{
    let mut seen = 0;
    for line in lines {
        if !is_of(line, server) {
            continue;
        }
        if seen == place {
            return Some(shown_as(line));
        }
        seen += 1;
    }
    None
}
