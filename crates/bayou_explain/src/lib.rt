//! What an audit found, told by the lines of its file.
//!
//! Callers give the text of an audit file and what the judge told of it. [`locate`] makes of the text its lines that tell something, each with its place
//! and what it tells. [`least_breaches`] are those of a survey, [`every_breach`] all that were found. [`explain_each`] makes of breaches, in their order, each
//! with the lines of both operations and of the Write that is missing. [`explain_forged`] says of an entry that can't be true which condition it fails, with the line that it doesn't go with, and [`held_at`] gives
//! the line of a Write of a dump. [`explained_text`] and [`forged_text`] show these to people; [`explanation_text`] and [`refusal_text`] show all that there is,
//! and [`audited_text`] says what was audited.
//!
//! Callers owe nothing. Where the survey isn't of this file, lines may be missing, and are `None`. It isn't promised that memory suffices.
#![tactic(auto)]

pub mod counted;
pub mod dumped;
pub mod each_server;
pub mod explained;
pub mod explanation;
pub mod json;
pub mod line;
pub mod located;
pub mod misfit;
pub mod refused;
mod sentence;
pub mod telling;

pub use counted::counts_of;
pub use dumped::held_at;
pub use each_server::standing_text;
pub use explained::{Explained, ShownLine, every_breach, explain, explain_each, least_breaches};
pub use explanation::{audited_text, counted_text, explanation_text, refusal_text};
pub use json::{
    audited_object, counted_object, explanation_objects, refusal_object, survey_objects,
    verdict_object,
};
pub use line::Located;
pub use located::locate;
pub use misfit::{DumpMisfit, misfit_at, misfit_text};
pub use refused::{Cause, Forged, explain_forged};
pub use sentence::{breach_sentence, breach_title, reason_line};
pub use telling::{explained_text, forged_text, shown_line};

#[cfg(test)]
mod tests;
