//! The readers of each kind of text.
use crate::audit_draft::AuditDraft;
use crate::draft::Draft;
use crate::network_draft::NetworkDraft;
use crate::text::TextReader;

/// A script of which a front was read.
pub type ScriptReader = TextReader<Draft>;

/// A script over a network of which a front was read.
pub type NetworkScriptReader = TextReader<NetworkDraft>;

/// An audit file of which a front was read.
pub type AuditReader = TextReader<AuditDraft>;
