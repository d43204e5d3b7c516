//! How something stands that a person learned.
ghost use Rattle.std.specs.Prelude.{◌≡◌};
ghost use Rattle.bayou_final.specs.Standing.{standing_word};

/// What is known of what became of a Write, or of the value of a key.
#[derive(Clone, Copy, Debug, PartialEq, Eq)]
pub enum Standing {
    /// It may change yet.
    Tentative,
    /// It stays.
    Final,
    /// It isn't what was reported before, and may change yet.
    Changed,
}

impl Standing {
    /// The word for it.
    pub fn word(self) -> &'static str
        ensures { result.now ≡ standing_word self }
    {
        match self {
            Standing::Tentative => "tentative",
            Standing::Final => "final",
            Standing::Changed => "changed",
        }
    }
}
