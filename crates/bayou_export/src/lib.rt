//! What a store has, taken out of it: each key of a server's database and its value, a line each.
//!
//! Callers see an [`Export`]: whose rows they are, what that server held, and the rows, in the order of keys. [`export_of`] makes one of a journal,
//! which is read once and stays as it is; of a server that answers `bayou_connect` gets the rows. [`write_export`] prints one: a line that says of
//! what, and a line for each row, spelled as the op of a program that puts it.
//!
//! Callers owe no more than the number of servers. It isn't promised that memory suffices, or that an output takes anything.
#![tactic(auto)]

pub mod journal;
pub mod lines;
pub mod plan;
pub mod rows;
pub mod whose;
pub mod writing;

pub use journal::{Export, export_journal, export_of};
pub use lines::told_counts;
pub use plan::{ExportPlan, ExportPlanFault};
pub use rows::rows_of;
pub use whose::Whose;
pub use writing::write_export;
