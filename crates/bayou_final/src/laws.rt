//! What the definitions come to: each law is the contract of a function that does nothing.
ghost use Rattle.std.specs.Prelude.{◌≡◌, ◌≤◌, ◌++◌, ℕ, List, Option, All};
ghost use Rattle.bayou_final.specs.Known.{AreRising, CountOwn, IsKnown, IsKnownBeginning, IsKnownFront};
ghost use Rattle.bayou_final.specs.Views.{AreChosen, AreHeard};
ghost use Rattle.bayou_lang.specs.declared.write.Write.{Write};
ghost use Rattle.bayou_lang.specs.Writes.{IsPrefixClosed, HaveDistinctWids, count_of, in_stamp_order, lacking_of};
ghost use Rattle.bayou_base.specs.declared.limits.TheConstants.{SERVERS};

/// Of chosen views each is one by which its server had made no more than the vector counts: the vector has what each had made itself.
pub fn chosen_views_count_their_own()
    ensures { (count : ℕ) (vector : List ℕ) (heard others chosen : List (Option (List ℕ))) (views : ℕ → List ℕ) → count ≤ SERVERS → AreChosen vector heard others chosen → AreHeard count chosen views
        → CountOwn count views vector }
{}

/// Writes each of which comes before the next one are in stamp order.
pub fn rising_writes_are_in_stamp_order()
    ensures { (writes : List Write) → AreRising writes → in_stamp_order writes ≡ writes }
{}

/// A beginning of a database, in stamp order, each Write of which is known, goes on with the longest known front of what is left: the two together are the longest known
/// beginning. What is left is what the counts of that beginning lack, so that a server with these counts is sent it; and the counts, raised to each Write
/// of the front, are those of the longer beginning.
pub fn a_known_beginning_goes_on()
    ensures longest { (count : ℕ) (views : ℕ → List ℕ) (database first later front : List Write) → in_stamp_order database ≡ first ++ later
        → All (λ write. IsKnown count views write.wid) first → IsKnownFront count views later front → IsKnownBeginning count views database (first ++ front) }
    ensures left { (database first later : List Write) → in_stamp_order database ≡ first ++ later → HaveDistinctWids (in_stamp_order database) → IsPrefixClosed first
        → lacking_of (count_of first) database ≡ later }
{}
