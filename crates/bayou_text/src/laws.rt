//! What the table of the lines and the order of faults come to: each law is the contract of a function that does nothing.
ghost use Rattle.std.specs.Prelude.{◌≡◌, ◌⊎◌, ℕ, List};
ghost use Rattle.bayou_text.specs.declared.line.LineFault.{LineFault};
ghost use Rattle.bayou_text.specs.Lines.{IsFaultOf};
ghost use Rattle.bayou_text.specs.Said.{Said};
ghost use Rattle.bayou_text.specs.Table.{Spells};

/// What bytes spell is one, and so is their fault: bytes spell a line or have a fault, and never both.
pub fn a_line_is_read_in_one_way()
    ensures one_line { (bytes : List ℕ) (one other : Said) → Spells bytes one → Spells bytes other → one ≡ other }
    ensures one_fault { (bytes : List ℕ) (one other : LineFault) → IsFaultOf bytes one → IsFaultOf bytes other → one ≡ other }
    ensures not_both { (bytes : List ℕ) (line : Said) (fault : LineFault) → Spells bytes line → ¬ IsFaultOf bytes fault }
    ensures either { (bytes : List ℕ) → ((line : Said) × Spells bytes line) ⊎ ((fault : LineFault) × IsFaultOf bytes fault) }
{}
