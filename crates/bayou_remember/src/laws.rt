//! What it comes to that sessions are kept: each law is the contract of a function that does nothing.
ghost use Rattle.bayou_client.specs.Operating.{Asking};
ghost use Rattle.std.specs.Prelude.{◌≡◌, ◌⊎◌, ◌++◌, ◌∷◌, [], ℕ, Err, List, None, Option, map};
ghost use Rattle.bayou_base.specs.declared.limits.TheConstants.{SESSIONS};
ghost use Rattle.bayou_journal.specs.Honest.{OnlyTears};
ghost use Rattle.bayou_journal.specs.Opening.{KeepsChains};
ghost use Rattle.bayou_remember.specs.Memory.{AreLast, HasAll, HasFailedToKeep, HasRemembered, MemoryState};
ghost use Rattle.bayou_remember.specs.Spelling.{SpellsKept, in_run};

use bayou_device::Device;
use bayou_journal::laws::{an_append_leaves_an_honest_device, an_honest_device_opens_honestly};

/// Bytes keep one session at the most, but for the run of one that has nothing to ask again.
pub fn bytes_keep_one_session()
    ensures { (run : ℕ) (bytes : List ℕ) (one other : Asking) → SpellsKept bytes one → SpellsKept bytes other → in_run run one ≡ in_run run other }
{}

/// What is kept is remembered: an opening of a device that has these, one after another, tells of each session the last of them, in its run, and
/// the device has them then as before. After an entry that could not be added it tells the last of those before, or of those and that one.
pub fn what_is_kept_is_remembered<D: Device>()
    ensures opened { (run : ℕ) (all : List Asking) (old new : MemoryState D) (told : List (Option Asking)) → D.is_modelled → HasAll D.Device old all
        → HasRemembered D.Device run old.device new told → AreLast (map (in_run run) all) told × HasAll D.Device new all }
    ensures failed { (run : ℕ) (all : List Asking) (kept : Asking) (old down new : MemoryState D) (told : List (Option Asking)) → OnlyTears D.Device → HasAll D.Device old all
        → HasFailedToKeep D.Device old kept down → KeepsChains (D.kept old.device) (D.kept down.device) → HasRemembered D.Device run down.device new told
        → (AreLast (map (in_run run) all) told × HasAll D.Device new all)
        ⊎ (AreLast (map (in_run run) (all ++ kept ∷ [])) told × HasAll D.Device new (all ++ kept ∷ [])) }
{
    bytes_keep_one_session();
    an_honest_device_opens_honestly::<D>();
    an_append_leaves_an_honest_device::<D>();
}
