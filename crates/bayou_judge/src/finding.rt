//! The Write of a name.
ghost use Rattle.std.specs.Prelude.{◌≡◌, ◌≢◌, ℕ, All, Contains, IfNone, IfSome};
ghost use Rattle.bayou_lang.specs.Writes.{AreFitting};
ghost use Rattle.bayou_judge.specs.Inner.Index.{IsIndexOf};

use crate::index::Index;
use bayou_base::Wid;
use bayou_lang::RestingWrite;

/// The Write of this name among those of a dump, if it has one.
pub(crate) fn find<'a>(
    dump: &'a [RestingWrite],
    index: &Index,
    wid: Wid,
) -> Option<&'a RestingWrite>
    requires fitting { (count : ℕ) × AreFitting count dump.now }
    requires indexed { IsIndexOf dump.now index.now }
    ensures found { IfSome result (λ write. Contains dump.now write.now × (write.now.wid ≡ wid)) }
    ensures missing { IfNone result (All (λ held. held.wid ≢ wid) dump.now) }
{
    match index.place_of(wid) {
        Some(place) => dump.get(place),
        None => None,
    }
}
