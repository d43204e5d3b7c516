//! What the definitions come to: each law is the contract of a function that does nothing.
ghost use Rattle.std.specs.Prelude.{◌≡◌, ◌↔◌, ℕ, List, Contains, Result};
ghost use Rattle.bayou_base.specs.Vector.{Covers};
ghost use Rattle.bayou_base.specs.declared.entry.Entry.{Entry};
ghost use Rattle.bayou_lang.specs.Writes.{count_of, IsSound};
ghost use Rattle.bayou_lang.specs.declared.write.Write.{Write};
ghost use Rattle.bayou_judge.specs.Answers.{Judges};
ghost use Rattle.bayou_judge.specs.Breaches.{Holds, IsBreach};
ghost use Rattle.bayou_judge.specs.Evidence.{AreGood};
ghost use Rattle.bayou_judge.specs.History.{dump_of, history_of, IsFrontOf};
ghost use Rattle.bayou_judge.specs.declared.breach.Breach.{Breach};
ghost use Rattle.bayou_judge.specs.declared.verdict.BadEvidence.{BadEvidence};
ghost use Rattle.bayou_judge.specs.declared.verdict.Verdict.{Verdict};

/// A breach violates its guarantee in its session.
pub fn a_breach_violates()
    ensures { (entries : List Entry) (dumps : List (List Write)) (breach : Breach) → IsBreach (history_of entries dumps) breach
        → ¬ Holds (history_of entries dumps) breach.guarantee breach.session.index }
{}

/// Good dumps are sound lists, each of its server.
pub fn good_dumps_are_sound()
    ensures { (count : ℕ) (dumps : List (List Write)) → AreGood count dumps → (server : ℕ) → IsSound server count (dump_of dumps server) }
{}

/// In good dumps a name is of one Write, wherever it stands.
pub fn a_name_is_of_one_write()
    ensures { (count : ℕ) (dumps : List (List Write)) → AreGood count dumps → (one other : Write) (here there : ℕ) → Contains (dump_of dumps here) one
        → Contains (dump_of dumps there) other → one.wid ≡ other.wid → one ≡ other }
{}

/// In good dumps the vector of a database stands for the set of its Writes: of those that are held anywhere it has just the ones
/// that its vector covers.
pub fn vectors_stand_for_sets()
    ensures { (count : ℕ) (dumps : List (List Write)) → AreGood count dumps → (server : ℕ) (database : List Write) → IsFrontOf (dump_of dumps server) database
        → (other : ℕ) (write : Write) → Contains (dump_of dumps other) write
        → Contains database write ↔ Covers (count_of database) write.wid.origin.index write.wid.seq }
{}

/// No two databases of a dump have the same vector.
pub fn a_vector_is_of_one_database()
    ensures { (dump database other : List Write) → IsFrontOf dump database → IsFrontOf dump other → count_of database ≡ count_of other → database ≡ other }
{}

/// Of entries and dumps there is one verdict, or one reason why there is none.
pub fn a_verdict_is_one()
    ensures { (count : ℕ) (entries : List Entry) (dumps : List (List Write)) (one other : Result Verdict BadEvidence) → Judges count entries dumps one
        → Judges count entries dumps other → one ≡ other }
{}
