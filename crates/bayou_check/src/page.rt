//! The pages that say more.
use crate::forms::ArrayForm;
use crate::parts::Part;
use thiserror::Error;

/// A page, and where on it.
#[derive(Clone, Copy, Debug, PartialEq, Eq, Error)]
pub enum ManualPage {
    #[error("docs/FORMATS.md, \"Lines\"")]
    Lines,
    #[error("docs/FORMATS.md, \"Commands\"")]
    Commands,
    #[error("docs/FORMATS.md, \"Lines of audit files\"")]
    AuditLines,
    #[error("docs/FORMATS.md, \"A script\"")]
    Script,
    #[error("docs/LANGUAGE.md, \"A program\"")]
    Language,
    #[error("docs/GUARANTEES.md, \"What a session asks for\"")]
    Asks,
}

impl ArrayForm {
    /// The page that has this form.
    pub(crate) fn page(self) -> ManualPage {
        match self {
            ArrayForm::Refused | ArrayForm::Served | ArrayForm::Accepted | ArrayForm::Held =>
                ManualPage::AuditLines,
            ArrayForm::Put
            | ArrayForm::Del
            | ArrayForm::Copy
            | ArrayForm::Plus
            | ArrayForm::Equals
            | ArrayForm::Absent
            | ArrayForm::AtLeast
            | ArrayForm::AtMost => ManualPage::Language,
            _ => ManualPage::Commands,
        }
    }
}

impl Part {
    /// The page that has this number.
    pub(crate) fn page(self) -> ManualPage {
        match self {
            Part::Place | Part::Seq | Part::Clock | Part::Tally => ManualPage::AuditLines,
            Part::Most | Part::Integer => ManualPage::Language,
            _ => ManualPage::Commands,
        }
    }
}
