//! Laws of starts and reopenings: over a device that the clauses model, the bytes decide; and laws of servers whose device calls
//! fail. Each is the contract of a function that does nothing.
ghost use Rattle.std.specs.Prelude.{◌≡◌, ℕ, List, [], ◌++◌, Option, Some, Result, All};
ghost use Rattle.bayou_base.specs.declared.tag.Tag.{Tag};
ghost use Rattle.bayou_base.specs.declared.wid.Wid.{Wid};
ghost use Rattle.bayou_lang.specs.declared.program.Program.{Program};
ghost use Rattle.bayou_lang.specs.declared.write.Write.{Write};
ghost use Rattle.bayou_server.specs.declared.fault.JournalFault.{JournalFault};
ghost use Rattle.bayou_server.specs.declared.fault.StartFault.{StartFault};
ghost use Rattle.bayou_server.specs.declared.fault.StartFault.TheVariants.{Journal};
ghost use Rattle.bayou_journal.specs.Chain.{IsBody};
ghost use Rattle.bayou_journal.specs.Honest.{BeginsWithBodies, OnlyTears};
ghost use Rattle.bayou_journal.specs.Opening.{KeepsChains};
ghost use Rattle.bayou_journal.specs.Versions.{Body};
ghost use Rattle.bayou_wire.specs.declared.record.Record.{Record};
ghost use Rattle.bayou_server.specs.declared.answer.Reopened.{Reopened};
ghost use Rattle.bayou_server.specs.declared.fault.ReopenFault.{ReopenFault};
ghost use Rattle.bayou_server.specs.declared.answer.Took.{Took};
ghost use Rattle.bayou_server.specs.declared.answer.Written.{Written};
ghost use Rattle.bayou_server.specs.declared.fault.TakeFault.{TakeFault};
ghost use Rattle.bayou_server.specs.declared.fault.WriteFault.{WriteFault};
ghost use Rattle.bayou_server.specs.Honest.{AreBetween, AreHonest, HasCrashed, HasCrashedAmid, IsHonestAmid, IsHonestAnswer, IsHonestServerDevice, IsHonestRefusal, IsHonestServer, IsKept, IsKeptServer, KeepsWrites, LosesNothing, MayTakeAll};
ghost use Rattle.bayou_server.specs.Reopens.{Recovers, Reopens};
ghost use Rattle.bayou_server.specs.Server.{Core, IsSoundServer, ServerState, record_in_doubt, records_of, untagged, with_device};
ghost use Rattle.bayou_server.specs.Starts.{FailsToStart, Starts, StartsOn, StopsAtEntry};
ghost use Rattle.bayou_server.specs.Stored.{BeginsWithHeld, HasOther, IsBodyOf, IsStored, OpensWith, OpensWithRecords, ReopensJournal, Stores, StoresTaken, StoresWrite};
ghost use Rattle.bayou_server.specs.Takes.{Takes};
ghost use Rattle.bayou_server.specs.Writes.{Writes};

use bayou_device::Device;
use bayou_journal::laws::{
    a_crash_leaves_an_honest_device as a_crash_of_a_journal, an_append_leaves_an_honest_device,
    an_honest_device_opens_honestly, what_is_kept_is_found, what_is_opened_is_one,
    what_stands_behind_the_kept_decides,
};
use bayou_wire::laws::{a_record_is_spelled_by_a_body, bytes_are_of_one_record};

/// What a start holds, with which tags, and how much it drops, is one.
pub fn a_start_is_one<D: Device>()
    ensures { (id count limit dropped more : ℕ) (device : D) (one other : ServerState D) → D.is_modelled
        → Starts id count limit one.core → StartsOn D.Device device one dropped
        → Starts id count limit other.core → StartsOn D.Device device other more
        → (one.core.held ≡ other.core.held) × (one.core.tags ≡ other.core.tags) × (dropped ≡ more) }
{
    what_is_opened_is_one::<D>();
    bytes_are_of_one_record();
}

/// A journal with which a server starts has no entry that it doesn't take.
pub fn what_starts_is_not_refused<D: Device>()
    ensures { (id count limit dropped : ℕ) (device left : D) (server : ServerState D) (fault : StartFault) → D.is_modelled
        → Starts id count limit server.core → StartsOn D.Device device server dropped
        → StopsAtEntry D.Device id count limit device left fault → ⊥ }
{
    what_is_opened_is_one::<D>();
    bytes_are_of_one_record();
}

/// What a reopening adopts, and what is held then, with which tags, is one.
pub fn a_reopening_is_one<D: Device>()
    ensures { (adopted other : Option Wid) (old new next : ServerState D) → D.is_modelled
        → Recovers old.core adopted new.core → OpensWithRecords D.Device old.core.id old.device new.device (records_of new.core) new.last
        → Recovers old.core other next.core → OpensWithRecords D.Device old.core.id old.device next.device (records_of next.core) next.last
        → (adopted ≡ other) × (new.core.held ≡ next.core.held) × (new.core.tags ≡ next.core.tags) }
{
    what_is_opened_is_one::<D>();
}

/// A journal with which a server is up again begins with what it held, and has nothing else after that but the Write in
/// doubt.
pub fn what_reopens_is_not_refused<D: Device>()
    ensures { (adopted : Option Wid) (old new : ServerState D) (left : D) (bodies : List Body) (last : List ℕ) (doubt : Write) → D.is_modelled
        → Recovers old.core adopted new.core → OpensWithRecords D.Device old.core.id old.device new.device (records_of new.core) new.last
        → OpensWith D.Device old.core.id old.device left bodies last → old.core.doubt ≡ Some doubt
        → BeginsWithHeld old.core.id (records_of old.core) bodies × (¬ HasOther old.core doubt bodies) }
{
    what_is_opened_is_one::<D>();
}

/// A server that starts on an empty device holds nothing.
pub fn a_start_on_an_empty_device_holds_nothing<D: Device>()
    ensures { (id count limit dropped : ℕ) (device : D) (server : ServerState D) → D.is_modelled → D.content device ≡ []
        → Starts id count limit server.core → StartsOn D.Device device server dropped
        → (server.core.held ≡ []) × (server.core.tags ≡ []) × (dropped ≡ 0) }
{
    what_is_opened_is_one::<D>();
}

/// What stands for a record is a body of a journal, and so is each that stands for one of several.
pub fn a_record_is_a_body()
    ensures one { (id : ℕ) (body : Body) (stored : Record) → IsBodyOf id body stored → IsBody body.bytes }
    ensures each { (id : ℕ) (bodies : List Body) (stored : List Record) → Stores id bodies stored → All (λ body. IsBody body.bytes) bodies }
{
    a_record_is_spelled_by_a_body();
}

/// Over a device whose failed calls do no more than to tear, a program and a given Write leave an honest server honest, whatever is
/// answered: while it is up its device is whole, and where the Write comes to be in doubt, honest.
pub fn an_honest_server_stays_honest<D: Device>()
    ensures written { (tag : Tag) (need : List ℕ) (program : Program) (result : Result Written WriteFault) (old new : ServerState D) → OnlyTears D.Device → IsSoundServer old.core → IsSoundServer new.core
        → IsHonestServer D.Device old → Writes old.core tag need program result new.core → StoresWrite D.Device old result new → KeepsChains (D.kept old.device) (D.kept new.device)
        → IsHonestServer D.Device new }
    ensures taken { (given : Write) (result : Result Took TakeFault) (old new : ServerState D) → OnlyTears D.Device → IsSoundServer old.core → IsSoundServer new.core
        → IsHonestServer D.Device old → Takes old.core given result new.core → StoresTaken D.Device old result new → KeepsChains (D.kept old.device) (D.kept new.device)
        → IsHonestServer D.Device new }
{
    an_append_leaves_an_honest_device::<D>();
    a_record_is_a_body();
}

/// A reopening of an honest server is honest: it gives what was held, or that and the Write in doubt. It is refused for a device call
/// or for memory alone, where the server isn't up: it is never lost, and never has a bad record. Over a device whose failed calls do
/// no more than to tear, the server is honest then, whatever is answered.
pub fn an_honest_server_is_reopened_honestly<D: Device>()
    ensures answer { (result : Result Reopened ReopenFault) (old new : ServerState D) → D.is_modelled → IsSoundServer old.core → IsHonestServer D.Device old
        → Reopens old.core result new.core → ReopensJournal D.Device old result new → IsHonestAnswer result }
    ensures held { (adopted : Option Wid) (old new : Core) → Recovers old adopted new → AreHonest old.held old.doubt new.held }
    ensures records { (adopted : Option Wid) (old new : Core) → IsSoundServer old → Recovers old adopted new → AreHonest (records_of old) (record_in_doubt old) (records_of new) }
    ensures left { (result : Result Reopened ReopenFault) (old new : ServerState D) → OnlyTears D.Device → IsSoundServer old.core → IsHonestServer D.Device old
        → Reopens old.core result new.core → ReopensJournal D.Device old result new → KeepsChains (D.kept old.device) (D.kept new.device) → IsHonestServer D.Device new }
{
    an_honest_device_opens_honestly::<D>();
    an_append_leaves_an_honest_device::<D>();
}

/// A start on an honest device is honest: it holds what was held, or that and the Write in doubt, and is over a whole device. It is
/// refused for a device call or for memory alone: its journal is no other server's and none that isn't one, and has no bad record, no
/// gap, and no Write too many. Over a device whose failed calls do no more than to tear, the device is honest then as it was before.
pub fn a_start_on_an_honest_device_is_honest<D: Device>()
    ensures held { (old : Core) (dropped : ℕ) (device : D) (server : ServerState D) → D.is_modelled → IsSoundServer old → IsHonestServerDevice D.Device old.id (records_of old) (record_in_doubt old) device
        → Starts old.id old.count old.limit server.core → StartsOn D.Device device server dropped → AreHonest old.held old.doubt server.core.held }
    ensures records { (old : Core) (dropped : ℕ) (device : D) (server : ServerState D) → D.is_modelled → IsSoundServer old → IsHonestServerDevice D.Device old.id (records_of old) (record_in_doubt old) device
        → Starts old.id old.count old.limit server.core → StartsOn D.Device device server dropped → AreHonest (records_of old) (record_in_doubt old) (records_of server.core) }
    ensures whole { (id count limit dropped : ℕ) (device : D) (server : ServerState D) → D.is_modelled
        → Starts id count limit server.core → StartsOn D.Device device server dropped → IsHonestServer D.Device server }
    ensures refusal { (old : Core) (device left : D) (fault : StartFault) → D.is_modelled → IsSoundServer old → IsHonestServerDevice D.Device old.id (records_of old) (record_in_doubt old) device
        → FailsToStart D.Device old.id old.count old.limit device left fault → IsHonestRefusal fault }
    ensures left { (old : Core) (device left : D) (fault : StartFault) → OnlyTears D.Device → IsSoundServer old → IsHonestServerDevice D.Device old.id (records_of old) (record_in_doubt old) device
        → FailsToStart D.Device old.id old.count old.limit device left fault → KeepsChains (D.kept device) (D.kept left)
        → IsHonestServerDevice D.Device old.id (records_of old) (record_in_doubt old) left }
{
    an_honest_device_opens_honestly::<D>();
    bytes_are_of_one_record();
}

/// What a server holds is kept, over each device that the clauses model, whatever its failed calls leave: an honest server's is, and each
/// call leaves it so, answered or not, a start that is refused too. So crashes may follow each other, and such calls.
pub fn what_is_held_is_kept<D: Device>()
    ensures honest { (server : ServerState D) → IsHonestServer D.Device server → IsKeptServer D.Device server }
    ensures written { (tag : Tag) (need : List ℕ) (program : Program) (result : Result Written WriteFault) (old new : ServerState D) → D.is_modelled → IsSoundServer old.core
        → IsKeptServer D.Device old → Writes old.core tag need program result new.core → StoresWrite D.Device old result new → KeepsChains (D.kept old.device) (D.kept new.device)
        → IsKeptServer D.Device new }
    ensures taken { (given : Write) (result : Result Took TakeFault) (old new : ServerState D) → D.is_modelled → IsSoundServer old.core
        → IsKeptServer D.Device old → Takes old.core given result new.core → StoresTaken D.Device old result new → KeepsChains (D.kept old.device) (D.kept new.device)
        → IsKeptServer D.Device new }
    ensures reopened { (result : Result Reopened ReopenFault) (old new : ServerState D) → D.is_modelled → IsSoundServer old.core
        → IsKeptServer D.Device old → Reopens old.core result new.core → ReopensJournal D.Device old result new → KeepsChains (D.kept old.device) (D.kept new.device)
        → IsKeptServer D.Device new }
    ensures device { (id : ℕ) (held : List Record) (doubt : Option Record) (last : List ℕ) (device : D) → IsKept D.Device id held doubt last device → KeepsWrites D.Device id held device }
    ensures honest_device { (id : ℕ) (held : List Record) (doubt : Option Record) (device : D) → IsHonestServerDevice D.Device id held doubt device → KeepsWrites D.Device id held device }
    ensures again { (id : ℕ) (held : List Record) (old new : D) → KeepsWrites D.Device id held old → KeepsChains (D.kept old) (D.kept new) → KeepsWrites D.Device id held new }
{
    an_append_leaves_an_honest_device::<D>();
    an_honest_device_opens_honestly::<D>();
    what_is_kept_is_found::<D>();
    a_record_is_a_body();
}

/// A server whose device crashed is started again honestly. Where the Writes held were kept, the device is honest, whatever a failed call
/// had left there; and a start on it holds what was held, or that and the Write in doubt, whose entry was being stored, and is over a
/// whole device. It is refused for a device call or for memory alone. A crash within a call is one after a call whose next device call
/// failed, or one at the call's begin, with the Write that comes in doubt.
pub fn a_crash_leaves_an_honest_device<D: Device>()
    ensures honest { (id : ℕ) (held : List Record) (doubt : Option Record) (before device : D) → KeepsWrites D.Device id held before → HasCrashed D.Device id held doubt before device
        → IsHonestServerDevice D.Device id held doubt device }
    ensures started { (old : Core) (dropped : ℕ) (before device : D) (server : ServerState D) → D.is_modelled → IsSoundServer old → KeepsWrites D.Device old.id (records_of old) before
        → HasCrashed D.Device old.id (records_of old) (record_in_doubt old) before device → Starts old.id old.count old.limit server.core → StartsOn D.Device device server dropped
        → AreHonest old.held old.doubt server.core.held × AreHonest (records_of old) (record_in_doubt old) (records_of server.core) × IsHonestServer D.Device server }
    ensures refused { (old : Core) (before device left : D) (fault : StartFault) → D.is_modelled → IsSoundServer old → KeepsWrites D.Device old.id (records_of old) before
        → HasCrashed D.Device old.id (records_of old) (record_in_doubt old) before device → FailsToStart D.Device old.id old.count old.limit device left fault → IsHonestRefusal fault }
{
    a_crash_of_a_journal::<D>();
    a_start_on_an_honest_device_is_honest::<D>();
}

/// The same as several Writes of other servers were being stored together: a start holds what was held, and a front of those, as between two
/// of their Takes, and is over a whole device. It is refused for a device call or for memory alone.
pub fn a_crash_amid_several_leaves_an_honest_device<D: Device>()
    ensures honest { (id : ℕ) (held taking : List Record) (before device : D) → KeepsWrites D.Device id held before → HasCrashedAmid D.Device id held taking before device
        → IsHonestAmid D.Device id held taking device }
    ensures started { (core : Core) (taking : List Write) (dropped : ℕ) (device : D) (server : ServerState D) → D.is_modelled → MayTakeAll core taking
        → IsHonestAmid D.Device core.id (records_of core) (untagged taking) device → Starts core.id core.count core.limit server.core → StartsOn D.Device device server dropped
        → AreBetween core.held taking server.core.held × IsHonestServer D.Device server }
    ensures refused { (core : Core) (taking : List Write) (device left : D) (fault : StartFault) → D.is_modelled → MayTakeAll core taking
        → IsHonestAmid D.Device core.id (records_of core) (untagged taking) device → FailsToStart D.Device core.id core.count core.limit device left fault → IsHonestRefusal fault }
{
    a_crash_of_a_journal::<D>();
    an_honest_device_opens_honestly::<D>();
    a_start_on_an_honest_device_is_honest::<D>();
    bytes_are_of_one_record();
}

/// The device of an honest server is honest, be the server up or down.
pub fn an_honest_server_has_an_honest_device<D: Device>()
    ensures { (server : ServerState D) → IsHonestServer D.Device server → IsHonestServerDevice D.Device server.core.id (records_of server.core) (record_in_doubt server.core) server.device }
{
    an_append_leaves_an_honest_device::<D>();
}

/// Only what a read of its device gives, and what that keeps, decide whether a server is honest.
pub fn what_its_device_holds_decides<D: Device>()
    ensures { (server : ServerState D) (other : D) → D.content other ≡ D.content server.device → D.kept other ≡ D.kept server.device
        → IsHonestServer D.Device server → IsHonestServer D.Device (with_device server other) }
{
    what_stands_behind_the_kept_decides::<D>();
}

/// Whatever a failed call or a crash leaves after what is kept: where the entries of the Writes held are kept, no reopening says that
/// one is lost, and a start holds them, before all others; neither says that the journal is another server's, or none.
pub fn what_is_kept_is_never_lost<D: Device>()
    ensures reopened { (bodies : List Body) (result : Result Reopened ReopenFault) (old new : ServerState D) → D.is_modelled → IsSoundServer old.core
        → Stores old.core.id bodies (records_of old.core) → BeginsWithBodies old.core.id bodies (D.kept old.device)
        → ReopensJournal D.Device old result new → LosesNothing result }
    ensures started { (bodies : List Body) (held : List Record) (id count limit dropped : ℕ) (device : D) (server : ServerState D) → D.is_modelled
        → Stores id bodies held → BeginsWithBodies id bodies (D.kept device)
        → Starts id count limit server.core → StartsOn D.Device device server dropped → (more : List Record) × (records_of server.core ≡ held ++ more) }
    ensures refused { (bodies : List Body) (id count limit : ℕ) (device left : D) (fault : JournalFault) → D.is_modelled
        → BeginsWithBodies id bodies (D.kept device)
        → FailsToStart D.Device id count limit device left (Journal fault) → IsHonestRefusal (Journal fault) }
{
    what_is_kept_is_found::<D>();
    bytes_are_of_one_record();
}

/// What a journal stores is of one list of Writes, with their tags.
pub fn what_is_stored_is_one()
    ensures { (id : ℕ) (bodies : List Body) (stored others : List Record) → Stores id bodies stored → Stores id bodies others → stored ≡ others }
{
    bytes_are_of_one_record();
}
