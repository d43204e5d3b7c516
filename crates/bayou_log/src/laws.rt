//! What the definitions come to, in the subject's own words: each law is the contract of a function that does nothing.
ghost use Rattle.std.specs.Prelude.{◌≡◌, ℕ, List, Option, Some, length, slice_get};
ghost use Rattle.bayou_base.specs.declared.wid.Wid.{Wid};
ghost use Rattle.bayou_lang.specs.declared.write.Write.{Write};
ghost use Rattle.bayou_lang.specs.Writes.{AreFitting, earlier_than, in_stamp_order, HaveDistinctStamps, HaveSameWrites};
ghost use Rattle.bayou_log.specs.declared.listing.Listed.{Listed};
ghost use Rattle.bayou_log.specs.Listing.{TellsOf, listed_at, listing_of};
ghost use Rattle.bayou_log.specs.Replay.{replay};

/// The replay is a function of the set of Writes: the order of their receipt doesn't matter.
pub fn replay_is_of_the_set()
    ensures { (xs ys : List Write) → HaveDistinctStamps xs → HaveDistinctStamps ys → HaveSameWrites xs ys → replay xs ≡ replay ys }
{}

/// A listing has the Writes in stamp order, each with the outcome that its program has on the replay of those before it.
pub fn listing_is_of_the_replay()
    ensures as_many { (writes : List Write) → length (listing_of writes) ≡ length writes }
    ensures outcomes { (writes : List Write) (place : ℕ) (write : Write) → HaveDistinctStamps writes → slice_get (in_stamp_order writes) place ≡ Some write
        → slice_get (listing_of writes) place ≡ Some (listed_at (replay (earlier_than write.stamp writes)) write) }
{}

/// What a listing tells of a name is one: no two Writes that a log holds have one name.
pub fn a_listing_tells_one_of_a_name()
    ensures { (count : ℕ) (writes : List Write) (name : Wid) (a b : Option Listed) → AreFitting count writes
        → TellsOf (listing_of writes) name a → TellsOf (listing_of writes) name b → a ≡ b }
{}
