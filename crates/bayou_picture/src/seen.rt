//! Operations and Writes, counted.
use crate::marks::MAX_WHOLE;
use bayou_base::SERVERS;
use bayou_explain::Located;
use bayou_text::AuditLine;

/// How many entries there are, and how many Writes each server holds.
#[derive(Clone, Copy, Debug)]
pub struct Amounts {
    pub entries: usize,
    pub held: [usize; SERVERS],
}

impl Amounts {
    /// Nothing was seen yet.
    pub(crate) fn new() -> Amounts {
        Amounts {
            entries: 0,
            held: [0; SERVERS],
        }
    }

    /// How many of the line's kind were seen before it: entries, or Writes of its server. The line is seen from here on.
    pub(crate) fn number(&mut self, line: &Located<'_>) -> usize {
        let counted = match &line.told {
            AuditLine::Entry { .. } => &mut self.entries,
            AuditLine::Held { server, .. } => &mut self.held[usize::from(server.index)],
        };
        let before = *counted;
        *counted = before.saturating_add(1);
        before
    }

    /// Whether all of it is drawn.
    pub(crate) fn is_small(&self) -> bool {
        self.entries <= MAX_WHOLE && self.held.iter().all(|count| *count <= MAX_WHOLE)
    }

    /// How many Writes are held.
    pub(crate) fn writes(&self) -> usize {
        let mut sum = 0usize;
        for count in &self.held {
            sum = sum.saturating_add(*count);
        }
        sum
    }
}
