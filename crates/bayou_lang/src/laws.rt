//! What the definitions come to, in the subject's own words: each law is the contract of a function that does nothing.
ghost use Rattle.std.specs.Prelude.{◌≡◌, ℕ, ◌<◌, ◌≤◌, ◌==◌, ◌+◌, ◌&&◌, ℤ, ◌+ℤ◌, ◌≤ℤ◌, ◌↔◌, All, AllPairs, Any, List, [], ◌∷◌, ◌++◌, Option, None, Some, true, false, FitsSigned, drop, filter, is_some, length, slice_get, slice_index, take, if◌then◌else◌};
ghost use Rattle.std.specs.Int.{w64};
ghost use Rattle.bayou_base.specs.declared.limits.TheConstants.{SERVERS};
ghost use Rattle.bayou_base.specs.declared.value.Value.{Value};
ghost use Rattle.bayou_base.specs.declared.value.Value.TheVariants.{Num};
ghost use Rattle.bayou_base.specs.declared.wid.Wid.{Wid};
ghost use Rattle.bayou_base.specs.Order.{is_before};
ghost use Rattle.bayou_base.specs.Vector.{Covers};
ghost use Rattle.bayou_lang.specs.declared.eval.Outcome.TheVariants.{Updated, Merged, Nothing};
ghost use Rattle.bayou_lang.specs.declared.program.Alt.{Alt};
ghost use Rattle.bayou_lang.specs.declared.program.Cond.TheVariants.{Equals, Absent, AtLeast, AtMost};
ghost use Rattle.bayou_lang.specs.declared.program.Program.{Program};
ghost use Rattle.bayou_lang.specs.declared.program.Term.TheVariants.{Plus};
ghost use Rattle.bayou_lang.specs.declared.write.Write.{Write};
ghost use Rattle.bayou_lang.specs.Equality.{same_program, same_write};
ghost use Rattle.bayou_lang.specs.Meaning.{after_alternative, after_ops, all_hold, holds, mean, term_value};
ghost use Rattle.bayou_lang.specs.Database.{Database, begins_with, changed, empty, number_with, same_key, value_at};
ghost use Rattle.bayou_lang.specs.Writes.{count_of, counted, in_stamp_order, lacking_of, raised_by, AreFitting, Fits, HaveDistinctStamps, HaveDistinctWids, HaveSameWrites, IsNextWrite, IsPrefixClosed};

/// Two databases that have the same at each key are one.
pub fn databases_are_what_they_have()
    ensures { (a b : Database) → ((key : List ℕ) → value_at a key ≡ value_at b key) → a ≡ b }
{}

/// The empty database has nothing at any key.
pub fn the_empty_database_has_nothing()
    ensures { (key : List ℕ) → value_at empty key ≡ None }
{}

/// A change gives its key the value, or takes it away, and leaves what each other key had.
pub fn a_change_is_of_its_key()
    ensures { (key : List ℕ) (value : Option Value) (database : Database) (other : List ℕ)
        → value_at (changed key value database) other ≡ (if same_key key other then value else value_at database other) }
{}

/// The empty database has no key that begins so.
pub fn the_empty_database_has_no_keys()
    ensures { (prefix : List ℕ) → number_with prefix empty ≡ 0 }
{}

/// A change counts for its key alone: with what the key had before, the number of keys that begin so is the earlier one with what the key has.
pub fn a_change_counts_for_its_key()
    ensures { (prefix key : List ℕ) (value : Option Value) (database : Database)
        → number_with prefix (changed key value database) + (if begins_with prefix key && is_some (value_at database key) then 1 else 0)
        ≡ number_with prefix database + (if begins_with prefix key && is_some value then 1 else 0) }
{}

/// Equals holds exactly where the key is present with the value.
pub fn equals_asks_for_the_value()
    ensures { (key : List ℕ) (value : Value) (database : Database) → (holds (Equals key value) database ≡ true) ↔ (value_at database key ≡ Some value) }
{}

/// Absent holds exactly where the key is absent.
pub fn absent_asks_for_no_value()
    ensures { (key : List ℕ) (database : Database) → (holds (Absent key) database ≡ true) ↔ (value_at database key ≡ None) }
{}

/// AtLeast holds exactly where the key has a number that isn't less.
pub fn at_least_asks_for_a_number()
    ensures { (key : List ℕ) (number : ℤ) (database : Database) → (holds (AtLeast key number) database ≡ true)
        ↔ ((found : ℤ) × (value_at database key ≡ Some (Num found)) × (number ≤ℤ found)) }
{}

/// AtMost holds exactly where no more keys that are present begin so.
pub fn at_most_asks_for_a_number_of_keys()
    ensures { (prefix : List ℕ) (most : ℕ) (database : Database) → (holds (AtMost prefix most) database ≡ true) ↔ (number_with prefix database ≤ most) }
{}

/// Plus has a value exactly where the key has a number and the sum is an `i64`, and that value is the sum.
pub fn plus_is_a_sum_that_fits()
    ensures { (key : List ℕ) (number : ℤ) (database : Database) (value : Value) → (term_value (Plus key number) database ≡ Some value)
        ↔ ((found : ℤ) × (value_at database key ≡ Some (Num found)) × FitsSigned w64 (found +ℤ number) × (value ≡ Num (found +ℤ number))) }
{}

/// Where nothing is applied the database is as it was.
pub fn nothing_leaves_the_database()
    ensures { (program : Program) (database : Database) → (mean program database).0 ≡ Nothing → (mean program database).1 ≡ database }
{}

/// Where the update is applied the dependency check holds, and every op had a value.
pub fn updated_means_all_ops()
    ensures { (program : Program) (database : Database) → (mean program database).0 ≡ Updated
        → (all_hold program.check.items database ≡ true) × (after_ops program.update.items database ≡ Some (mean program database).1) }
{}

/// Where an alternative is applied the dependency check fails, that alternative fits, and none before it does.
pub fn merged_means_the_first_that_fits()
    ensures { (program : Program) (database : Database) (number : ℕ) → (mean program database).0 ≡ Merged number
        → (all_hold program.check.items database ≡ false)
        × ((alt : Alt) × (slice_get program.merge.items number ≡ Some alt) × (after_alternative alt database ≡ Some (mean program database).1))
        × ((earlier : ℕ) (alt : Alt) → earlier < number → slice_get program.merge.items earlier ≡ Some alt → after_alternative alt database ≡ None) }
{}

/// The Writes in stamp order are those of the list, and none comes before one that stands before it.
pub fn stamp_order_is_of_the_writes()
    ensures same { (writes : List Write) → HaveSameWrites writes (in_stamp_order writes) }
    ensures as_many { (writes : List Write) → length (in_stamp_order writes) ≡ length writes }
    ensures ordered { (writes : List Write) → AllPairs (λ a b. is_before b.stamp a.stamp ≡ false) (in_stamp_order writes) }
{}

/// A count is the number of Writes of the server.
pub fn count_is_the_number_of_writes()
    ensures { (writes : List Write) (server : ℕ) → server < SERVERS
        → slice_index (count_of writes) server ≡ length (filter (λ write. write.wid.origin.index == server) writes) }
{}

/// One more Write is counted for its server.
pub fn one_more_write_is_counted()
    ensures { (writes : List Write) (write : Write) → count_of (writes ++ write ∷ []) ≡ counted (count_of writes) write.wid }
{}

/// Of each server the Writes of a fitting list are its first ones: none is missing.
pub fn fitting_writes_are_prefix_closed()
    ensures { (count : ℕ) (writes : List Write) → AreFitting count writes → IsPrefixClosed writes }
{}

/// A fitting list has a Write of a name exactly where its counts cover it.
pub fn fitting_writes_are_those_counted()
    ensures { (count : ℕ) (writes : List Write) (name : Wid) → AreFitting count writes
        → Any (λ write. write.wid ≡ name) writes ↔ Covers (count_of writes) name.origin.index name.seq }
{}

/// No two Writes of a fitting list have one name, and no two have one stamp.
pub fn fitting_writes_are_distinct()
    ensures wids { (count : ℕ) (writes : List Write) → AreFitting count writes → HaveDistinctWids writes }
    ensures stamps { (count : ℕ) (writes : List Write) → AreFitting count writes → HaveDistinctStamps writes }
{}

/// The Write that a server makes next fits those that it holds.
pub fn own_next_write_fits()
    ensures { (count : ℕ) (writes : List Write) (server : ℕ) (asked : Program) (write : Write) → AreFitting count writes → server < count
        → IsNextWrite writes server asked write → Fits count writes write }
{}

/// The Write that a server makes next comes after every Write that it holds.
pub fn own_next_write_is_the_latest()
    ensures { (writes : List Write) (server : ℕ) (asked : Program) (write : Write) → IsNextWrite writes server asked write
        → All (λ held. is_before held.stamp write.stamp ≡ true) writes }
{}

/// Of two Writes of one server the later one has the greater clock.
pub fn own_clocks_rise()
    ensures { (count : ℕ) (writes : List Write) → AreFitting count writes
        → All (λ one. All (λ other. one.wid.origin ≡ other.wid.origin → one.wid.seq < other.wid.seq → one.stamp.clock < other.stamp.clock) writes) writes }
{}

/// `==` on programs and on Writes, at rest or not, is true exactly where the two are one.
pub fn equality_decides()
    ensures programs { (a b : Program) → (same_program a b ≡ true) ↔ (a ≡ b) }
    ensures writes { (a b : Write) → (same_write a b ≡ true) ↔ (a ≡ b) }
{}

/// Once the first so many of the Writes that are lacking are counted, the others are lacking.
pub fn what_is_lacking_goes_on()
    ensures { (count most : ℕ) (counts : List ℕ) (writes : List Write) → AreFitting count writes → length counts ≡ SERVERS
        → lacking_of (raised_by counts (take most (lacking_of counts writes))) writes ≡ drop most (lacking_of counts writes) }
{}
