//! A store that goes on after its log is full: the database of the old Writes, as the first Writes of a new store.
//!
//! Callers see the rows that a server's database has, but for those whose keys begin with a prefix that is left out ([`kept_rows_of`]), and the
//! Writes that server 0 makes of rows where it holds nothing ([`writes_of`]): as many puts each as an update may have. They follow from the rows
//! alone, so that each server of the new store gets the same. `laws` says that they make the old database again, without those prefixes.
//!
//! Callers owe no more rows than the Writes of one log may put.
#![tactic(auto)]

pub mod copied;
pub mod digesting;
pub mod fault;
pub mod files;
pub mod laws;
pub mod plan;
pub mod renewing;
pub mod rows;
pub mod writes;

pub use fault::{ReadingFault, RenewFault, WritingFault};
pub use files::{NotRenewed, RenewalPaths, renew_journal};
pub use plan::{RenewalPlan, RenewalPlanFault, RenewalWish};
pub use renewing::{Renewed, put_journal, renew};
pub use rows::kept_rows_of;
pub use writes::{number_of, writes_of};
