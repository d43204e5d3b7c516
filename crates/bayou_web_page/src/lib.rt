//! The page that is shown, as a constant of the program, and the policy that a browser holds it to.
//!
//! `.ci/web-page` writes `page.rt` from `data/page.html`, and `.ci/house` holds the two to each other.
#![tactic(auto)]

pub mod page;

pub use page::{PAGE, POLICY};
