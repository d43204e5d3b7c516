//! Laws of a journal's bytes, and of devices whose calls fail, each the contract of a function that does nothing.

ghost use Rattle.std.specs.Prelude.{◌≡◌, ◌⊎◌, ◌<◌, ◌≤◌, ◌++◌, ◌∷◌, [], ℕ, List, None, Option, Some, length, map, take};
ghost use Rattle.bayou_device.specs.Device.{BeginsWith};
ghost use Rattle.bayou_device.specs.Memory.{AddsFront, Memory, crashed, kept_bytes};
ghost use Rattle.bayou_journal.specs.Chain.{AreBodies, IsBody, IsLongestChain, NoEntry, chain_end, entries, entry, header, journal, last_link, link};
ghost use Rattle.bayou_device.specs.MemoryDevice.{memory_device};
ghost use Rattle.bayou_journal.specs.Honest.{BeginsWithBodies, GoesOnHonestly, HasCrashed, HasJournal, IsFrontOfHeader, IsHonest, IsHonestDevice, IsPassing, IsRecoverable, IsWhole, KeepsBodies, OnlyTears, added_body, torn};
ghost use Rattle.bayou_journal.specs.Opened.{Found};
ghost use Rattle.bayou_journal.specs.Opening.{FailsToAdd, FailsToOpen, Finds, HasOpened, HasRefused, IsForeign, IsOfAnother, KeepsChains};
ghost use Rattle.bayou_journal.specs.Versions.{AreLongest, Body, IsVersionOf, Records, bodies_in, body_in, end_of, journal_of, marked, version_of};
ghost use Rattle.bayou_journal.specs.declared.fault.OpenFault.{OpenFault};
ghost use Rattle.bayou_journal.specs.declared.format.TheConstants.{NEWEST_VERSION};

use bayou_device::Device;

/// The longest chain is one.
pub fn longest_chain_is_one()
    ensures { (version server : ℕ) (bytes : List ℕ) (bodies others : List (List ℕ)) (rest behind : List ℕ) → IsLongestChain version server bytes bodies rest → IsLongestChain version server bytes others behind → (bodies ≡ others) × (rest ≡ behind) }
{}

/// A journal and nothing else is its own longest chain.
pub fn a_whole_journal_is_its_longest_chain()
    ensures { (server : ℕ) (records : Records) → IsVersionOf server records.version → AreBodies records.bodies → AreLongest server (journal_of server records) records [] }
{}

/// What the entries of a chain tell are bodies that an entry may carry.
pub fn what_is_told_are_bodies()
    ensures { (records : Records) → AreBodies records.bodies → AreBodies (map (λ (body : Body). body.bytes) (bodies_in records)) }
{}

/// What an opening finds in the bytes, and how much it drops, is one.
pub fn what_is_found_is_one()
    ensures { (server : ℕ) (bytes : List ℕ) (records others : Records) (dropped more : ℕ) → Finds server bytes records dropped → Finds server bytes others more → (records ≡ others) × (dropped ≡ more) }
{}

/// What an opening tells is one, and the digest that the next entry stands after then; nothing is reported of a device with nothing.
pub fn what_is_opened_is_one<D: Device>()
    ensures one { (server : ℕ) (old new next : D) (found others : Found) (last end : List ℕ) → D.is_modelled
        → HasOpened D.Device server old new found last → HasOpened D.Device server old next others end → (found ≡ others) × (last ≡ end) }
    ensures nothing { (server : ℕ) (old new : D) (found : Found) (last : List ℕ) → D.is_modelled → D.content old ≡ []
        → HasOpened D.Device server old new found last → (found.bodies ≡ []) × (found.dropped ≡ 0) }
{}

/// Bytes in which something is found are no foreign ones, and no other server's journal; and no bytes are both.
pub fn what_is_found_is_not_refused()
    ensures foreign { (server : ℕ) (bytes : List ℕ) (records : Records) (dropped : ℕ) → Finds server bytes records dropped → IsForeign bytes → ⊥ }
    ensures another { (server : ℕ) (bytes : List ℕ) (records : Records) (dropped : ℕ) → Finds server bytes records dropped → IsOfAnother server bytes → ⊥ }
    ensures both { (server : ℕ) (bytes : List ℕ) → IsForeign bytes → IsOfAnother server bytes → ⊥ }
{}

/// A chain with which the bytes begin is a front of the longest.
pub fn a_chain_is_a_front_of_the_longest()
    ensures { (version server : ℕ) (bytes : List ℕ) (bodies longest : List (List ℕ)) (rest : List ℕ) → AreBodies bodies → BeginsWith (journal version server bodies) bytes
        → IsLongestChain version server bytes longest rest → (more : List (List ℕ)) × (longest ≡ bodies ++ more) }
{}

/// An opening of a torn journal is honest: it finds the bodies before the tear, and the one after them exactly where its
/// entry is whole.
pub fn a_torn_journal_opens_honestly()
    ensures part { (version server : ℕ) (bodies : List (List ℕ)) (body : List ℕ) (count : ℕ) → AreBodies bodies → IsBody body → count < length (entry (chain_end version server bodies) body)
        → IsLongestChain version server (torn version server bodies body count) bodies (take count (entry (chain_end version server bodies) body)) }
    ensures whole { (version server : ℕ) (bodies : List (List ℕ)) (body : List ℕ) (count : ℕ) → AreBodies bodies → IsBody body → length (entry (chain_end version server bodies) body) ≤ count
        → IsLongestChain version server (torn version server bodies body count) (bodies ++ body ∷ []) [] }
    ensures honest { (server : ℕ) (records : Records) (body : List ℕ) (count : ℕ) (found : Records) (dropped : ℕ) → AreBodies records.bodies → IsBody body
        → version_of records ≡ NEWEST_VERSION → Finds server (torn records.version server records.bodies body count) found dropped
        → IsHonest (bodies_in records) (added_body body ∷ []) (bodies_in found) }
{}

/// Over a device that at a failed call may only add a front of its piece, as one in memory does, a journal whose append
/// failed is torn, and stays so as long as its openings fail.
pub fn a_fault_leaves_a_torn_journal()
    ensures append { (version server : ℕ) (bodies : List (List ℕ)) (body after : List ℕ) → FailsToAdd AddsFront (entry (chain_end version server bodies) body) (journal version server bodies) after
        → (count : ℕ) × (after ≡ torn version server bodies body count) }
    ensures opening { (server : ℕ) (records : Records) (body : List ℕ) (count : ℕ) (after : List ℕ) → AreBodies records.bodies → IsBody body
        → version_of records ≡ NEWEST_VERSION → FailsToOpen AddsFront server (torn records.version server records.bodies body count) after
        → (left : ℕ) × (after ≡ torn records.version server records.bodies body left) }
{}

/// A torn journal is recoverable: no entry goes on in it but that of the body whose append tore it.
pub fn a_torn_journal_is_recoverable()
    ensures { (server : ℕ) (records : Records) (body : List ℕ) (count : ℕ) → IsVersionOf server records.version → AreBodies records.bodies → IsBody body → version_of records ≡ NEWEST_VERSION
        → IsRecoverable server (bodies_in records) (added_body body ∷ []) (torn records.version server records.bodies body count) }
{}

/// An opening of a recoverable journal is honest: it finds the bodies that were added, and a front of those in doubt, and never
/// anything else; and there is something that it finds.
pub fn a_recoverable_journal_opens_honestly()
    ensures honest { (server : ℕ) (bodies : List Body) (doubts : List Body) (bytes : List ℕ) (found : Records) (dropped : ℕ)
        → IsRecoverable server bodies doubts bytes → Finds server bytes found dropped → IsHonest bodies doubts (bodies_in found) }
    ensures found { (server : ℕ) (bodies : List Body) (doubts : List Body) (bytes : List ℕ)
        → IsRecoverable server bodies doubts bytes → (found : Records) × (dropped : ℕ) × Finds server bytes found dropped }
{}

/// An opening leaves the journal of what it found and nothing else, all of it kept, at the newest version; of an honest device it is
/// honest. It is refused for a device call or for memory alone; and over a device whose failed calls do no more than to tear, the
/// device is honest then as it was before.
pub fn an_honest_device_opens_honestly<D: Device>()
    ensures whole { (server : ℕ) (old new : D) (found : Found) (last : List ℕ) → D.is_modelled → HasOpened D.Device server old new found last → IsWhole D.Device server found.bodies last new }
    ensures opened { (server : ℕ) (bodies : List Body) (doubts : List Body) (old new : D) (found : Found) (last : List ℕ) → D.is_modelled
        → IsHonestDevice D.Device server bodies doubts old → HasOpened D.Device server old new found last → IsHonest bodies doubts found.bodies }
    ensures again { (server : ℕ) (bodies : List Body) (doubts : List Body) (old new : D) (found : Found) (last : List ℕ) → D.is_modelled
        → IsHonestDevice D.Device server bodies doubts old → HasOpened D.Device server old new found last → KeepsChains (D.kept old) (D.kept new) → IsHonestDevice D.Device server bodies doubts new }
    ensures passing { (server : ℕ) (bodies : List Body) (doubts : List Body) (old new : D) (fault : OpenFault) → D.is_modelled
        → IsHonestDevice D.Device server bodies doubts old → HasRefused D.Device server old new fault → IsPassing fault }
    ensures refused { (server : ℕ) (bodies : List Body) (doubts : List Body) (old new : D) (fault : OpenFault) → OnlyTears D.Device
        → IsHonestDevice D.Device server bodies doubts old → HasRefused D.Device server old new fault → KeepsChains (D.kept old) (D.kept new)
        → IsHonestDevice D.Device server bodies doubts new }
{
    what_is_found_is_not_refused();
}

/// A device with a journal and nothing else, all of it kept, is honest; an append to it that succeeds leaves it so, with one body more;
/// and where one fails, it is honest for the same bodies and the one that was to be added.
pub fn an_append_leaves_an_honest_device<D: Device>()
    ensures more { (server : ℕ) (bodies : List Body) (last bytes body : List ℕ) → HasJournal server bodies last bytes → IsBody body
        → HasJournal server (bodies ++ added_body body ∷ []) (link last body) (bytes ++ entry last body) }
    ensures whole { (server : ℕ) (bodies : List Body) (doubts : List Body) (last : List ℕ) (device : D)
        → IsWhole D.Device server bodies last device → IsHonestDevice D.Device server bodies doubts device }
    ensures added { (server : ℕ) (bodies : List Body) (last body : List ℕ) (old new : D) → IsWhole D.Device server bodies last old → IsBody body
        → D.content new ≡ D.content old ++ entry last body → D.kept new ≡ D.content new → IsWhole D.Device server (bodies ++ added_body body ∷ []) (link last body) new }
    ensures failed { (server : ℕ) (bodies : List Body) (last body : List ℕ) (old new : D) → OnlyTears D.Device → IsBody body → IsWhole D.Device server bodies last old
        → FailsToAdd D.may_leave (entry last body) (D.content old) (D.content new) → KeepsChains (D.kept old) (D.kept new)
        → IsHonestDevice D.Device server bodies (added_body body ∷ []) new }
{}

/// The same of several that are added together, and synced once: where that succeeds the device is whole with all of them, and where it
/// fails, honest for the bodies that it had and for those that were to be added. An opening finds a front of those, and each front may
/// be found.
pub fn an_append_of_several_leaves_an_honest_device<D: Device>()
    ensures added { (server : ℕ) (bodies : List Body) (last : List ℕ) (more : List (List ℕ)) (old new : D) → IsWhole D.Device server bodies last old → AreBodies more
        → D.content new ≡ D.content old ++ entries last more → D.kept new ≡ D.content new → IsWhole D.Device server (bodies ++ map added_body more) (last_link last more) new }
    ensures failed { (server : ℕ) (bodies : List Body) (last : List ℕ) (more : List (List ℕ)) (old new : D) → OnlyTears D.Device → AreBodies more → IsWhole D.Device server bodies last old
        → FailsToAdd D.may_leave (entries last more) (D.content old) (D.content new) → KeepsChains (D.kept old) (D.kept new)
        → IsHonestDevice D.Device server bodies (map added_body more) new }
    ensures front { (bodies doubts found : List Body) → IsHonest bodies doubts found → (front : List Body) × (behind : List Body) × (doubts ≡ front ++ behind) × (found ≡ bodies ++ front) }
    ensures each { (bodies front behind : List Body) → IsHonest bodies (front ++ behind) (bodies ++ front) }
{}

/// Whatever a failed call or a crash leaves after what is kept: an opening finds each body that is kept, before all others,
/// and is refused for a device call or for memory alone.
pub fn what_is_kept_is_found<D: Device>()
    ensures opened { (server : ℕ) (bodies : List Body) (old new : D) (found : Found) (last : List ℕ) → D.is_modelled
        → BeginsWithBodies server bodies (D.kept old) → HasOpened D.Device server old new found last → (more : List Body) × (found.bodies ≡ bodies ++ more) }
    ensures passing { (server : ℕ) (bodies : List Body) (old new : D) (fault : OpenFault) → D.is_modelled
        → BeginsWithBodies server bodies (D.kept old) → HasRefused D.Device server old new fault → IsPassing fault }
    ensures again { (server : ℕ) (bodies : List Body) (before after : List ℕ) → BeginsWithBodies server bodies before → KeepsChains before after → BeginsWithBodies server bodies after }
{}

/// A device that keeps a journal is honest by what stands after that, as after a crash: where nothing goes on from it but a front of those in
/// doubt, as in a front of their entries; or where that entry is kept too, and no other goes on from it. Nothing else of a device
/// decides whether it is.
pub fn what_stands_behind_the_kept_decides<D: Device>()
    ensures honest { (server : ℕ) (records : Records) (doubts : List Body) (device : D) (tail : List ℕ) → IsVersionOf server records.version → AreBodies records.bodies → D.kept device ≡ journal_of server records
        → D.content device ≡ D.kept device ++ tail → GoesOnHonestly server records doubts tail → IsHonestDevice D.Device server (bodies_in records) doubts device }
    ensures doubt { (server : ℕ) (records : Records) (body : List ℕ) (device : D) (tail : List ℕ) → IsVersionOf server records.version → AreBodies records.bodies → IsBody body
        → marked (version_of records) body ≡ None → D.kept device ≡ journal records.version server (records.bodies ++ body ∷ [])
        → D.content device ≡ D.kept device ++ tail → NoEntry (chain_end records.version server (records.bodies ++ body ∷ [])) tail
        → IsHonestDevice D.Device server (bodies_in records) (body_in (version_of records) body ∷ []) device }
    ensures front { (server : ℕ) (records : Records) (body : List ℕ) (count : ℕ) → IsBody body → marked (version_of records) body ≡ None
        → GoesOnHonestly server records (body_in (version_of records) body ∷ []) (take count (entry (end_of server records) body)) }
    ensures several { (server : ℕ) (records : Records) (bodies : List (List ℕ)) (count : ℕ) → AreBodies bodies → version_of records ≡ NEWEST_VERSION
        → GoesOnHonestly server records (map added_body bodies) (take count (entries (end_of server records) bodies)) }
    ensures entry { (server : ℕ) (records : Records) (body tail : List ℕ) → IsBody body → marked (version_of records) body ≡ None → NoEntry (link (end_of server records) body) tail
        → GoesOnHonestly server records (body_in (version_of records) body ∷ []) (entry (end_of server records) body ++ tail) }
    ensures newest { (body : List ℕ) → marked NEWEST_VERSION body ≡ None }
    ensures same { (server : ℕ) (bodies : List Body) (doubts : List Body) (device other : D) → D.content other ≡ D.content device → D.kept other ≡ D.kept device
        → IsHonestDevice D.Device server bodies doubts device → IsHonestDevice D.Device server bodies doubts other }
{}

/// A crash leaves a device that keeps the bodies which were added honest for them and for those in doubt, whatever a failed call
/// had left there, and whatever else is kept, be it their entries.
pub fn a_crash_leaves_an_honest_device<D: Device>()
    ensures { (server : ℕ) (bodies : List Body) (doubts : List Body) (old new : D) → KeepsBodies D.Device server bodies old
        → HasCrashed D.Device server bodies doubts old new → IsHonestDevice D.Device server bodies doubts new }
{}

/// What a crash of a device in memory does is a crash, where nothing goes on in what it leaves but a front of those in doubt.
pub fn a_device_in_memory_crashes()
    ensures { (server : ℕ) (bodies : List Body) (doubts : List Body) (tail : List ℕ) (old new : Memory) → new ≡ crashed tail old → kept_bytes new ≡ kept_bytes old
        → ((records : Records) (more : List ℕ) → IsVersionOf server records.version → AreBodies records.bodies → bodies_in records ≡ bodies → kept_bytes old ≡ journal_of server records ++ more
        → GoesOnHonestly server records doubts (more ++ tail))
        → ((version : ℕ) × IsVersionOf server version × BeginsWith (header version server) (kept_bytes old)) ⊎ IsFrontOfHeader server (kept_bytes old ++ tail)
        → HasCrashed memory_device server bodies doubts old new }
{}

/// A failed call of a device in memory does no more than to tear.
pub fn a_device_in_memory_only_tears()
    ensures { OnlyTears memory_device }
{}
