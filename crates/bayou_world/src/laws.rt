//! What is true of every run: each law is the contract of a function that does nothing.
ghost use Rattle.std.specs.Prelude.{◌≡◌, ◌≢◌, ◌<◌, ◌≤◌, ◌+◌, ◌++◌, ℕ, List, [], Option, None, Some, Result, Ok, Err, true, All, Contains, length, max, slice_get, slice_index};
ghost use Rattle.bayou_base.specs.declared.answer.Seen.{Seen};
ghost use Rattle.bayou_base.specs.declared.asks.Asks.{Asks};
ghost use Rattle.bayou_base.specs.declared.limits.TheConstants.{MAX_NUMBER};
ghost use Rattle.bayou_base.specs.declared.server.ServerId.{ServerId};
ghost use Rattle.bayou_base.specs.declared.session.SessionId.{SessionId};
ghost use Rattle.bayou_base.specs.declared.stamp.Stamp.{Stamp};
ghost use Rattle.bayou_base.specs.declared.tag.Tag.{Tag};
ghost use Rattle.bayou_base.specs.Order.{is_before};
ghost use Rattle.bayou_base.specs.Vector.{joined, raised};
ghost use Rattle.bayou_judge.specs.Guarantees.{Keeps};
ghost use Rattle.bayou_judge.specs.History.{history_of};
ghost use Rattle.bayou_final.specs.Known.{HasOwn, IsKnown, IsKnownBeginning};
ghost use Rattle.bayou_lang.specs.declared.program.Program.{Program};
ghost use Rattle.bayou_lang.specs.declared.write.Write.{Write};
ghost use Rattle.bayou_lang.specs.Writes.{count_of, lacking_of};
ghost use Rattle.bayou_server.specs.declared.answer.Reopened.{Reopened};
ghost use Rattle.bayou_server.specs.declared.answer.Took.{Took as Taken};
ghost use Rattle.bayou_server.specs.declared.answer.Written.{Written};
ghost use Rattle.bayou_server.specs.declared.fault.Behind.{Behind};
ghost use Rattle.bayou_server.specs.declared.fault.ReopenFault.{ReopenFault};
ghost use Rattle.bayou_server.specs.declared.fault.StartFault.{StartFault};
ghost use Rattle.bayou_server.specs.declared.fault.TakeFault.{TakeFault};
ghost use Rattle.bayou_server.specs.declared.fault.TakeFault.TheVariants.{Gap};
ghost use Rattle.bayou_server.specs.declared.fault.WriteFault.{WriteFault};
ghost use Rattle.bayou_server.specs.Honest.{AreHonest, IsHonestAnswer, IsHonestRefusal};
ghost use Rattle.bayou_server.specs.Reads.{Reads};
ghost use Rattle.bayou_server.specs.Reopens.{Reopens};
ghost use Rattle.bayou_server.specs.Server.{Core, ServerState, record_in_doubt, records_of};
ghost use Rattle.bayou_server.specs.Starts.{Starts};
ghost use Rattle.bayou_server.specs.Stored.{ReopensJournal};
ghost use Rattle.bayou_server.specs.Takes.{Takes};
ghost use Rattle.bayou_server.specs.Writes.{Writes};
ghost use Rattle.bayou_session.specs.Needs.{Told, new_session as first_told, read_need, write_need};
ghost use Rattle.bayou_world.specs.declared.event.Event.{Event};
ghost use Rattle.bayou_world.specs.declared.event.Event.TheVariants as events_of;
ghost use Rattle.bayou_world.specs.declared.reply.Reply.{Reply};
ghost use Rattle.bayou_world.specs.declared.reply.Reply.TheVariants as replies_of;
ghost use Rattle.bayou_world.specs.Agreement.{IsToldOf, ItemTestsAgree, NeedsAgree, RunTelling, StandsFor};
ghost use Rattle.bayou_world.specs.Final.{AreViews, BeginsWith, Had, IsFinal, IsKnownStamp, IsView, Leads, TellsRead, TellsWrite, up_to};
ghost use Rattle.bayou_world.specs.Invariant.{IsConsistent, IsImpossible, IsTakenUpTo, TestsAgree};
ghost use Rattle.bayou_world.specs.Judged.{AreDumpsOf, AreOneHistory, IsJudgedClean, entries_of};
ghost use Rattle.bayou_world.specs.Machine.{Answered, Asking, Machine, Made, Offered, SessionSets, writes};
ghost use Rattle.bayou_world.specs.Never.{FindsOthers, OpensHonestly, core_at};
ghost use Rattle.bayou_world.specs.Rows.{IsAnsweredAt, IsOnlyServer, told_of_program, told_of_read};
ghost use Rattle.bayou_world.specs.Runs.{Run, first_machine, history_of_machine, new_session};
ghost use Rattle.bayou_world.specs.Steps.{AgainStep, HoldsName, IsGiven, IsRunning, IsTagOf, MayBegin, ReadStep, Step, TakeStep, WriteStep, first_asking, heard};
ghost use Rattle.bayou_world.specs.Tags.{AreTagged, HasDistinctTags};

use bayou_device::Device;
use bayou_judge::laws::{a_vector_is_of_one_database, a_verdict_is_one};
use bayou_lang::laws::count_is_the_number_of_writes;
use bayou_session::laws::{read_need_is_what_is_asked, write_need_is_what_is_asked};

/// Over every run each served operation of a session has every guarantee that the session asked for (Terry et al. 1994).
pub fn every_run_keeps_what_was_asked_for()
    ensures { (count limit capacity : ℕ) (asks : ℕ → Option Asks) (events : List Event) (replies : List Reply) (last : Machine) → Run (first_machine count limit capacity asks) events replies last
        → (session : ℕ) (wants : Asks) → asks session ≡ Some wants → Keeps (history_of_machine last) wants session }
{}

/// Over every run what was served and what each server holds stand, as the judge sees them, for the very history that the machine has;
/// and of them the judge has one answer, that each session had what it asked for: no dump is bad, and no entry is forged.
pub fn every_run_is_judged_clean()
    ensures history { (count limit capacity : ℕ) (asks : ℕ → Option Asks) (events : List Event) (replies : List Reply) (last : Machine) → Run (first_machine count limit capacity asks) events replies last
        → (dumps : List (List Write)) → AreDumpsOf last dumps → AreOneHistory (history_of (entries_of last) dumps) (history_of_machine last) }
    ensures clean { (count limit capacity : ℕ) (asks : ℕ → Option Asks) (events : List Event) (replies : List Reply) (last : Machine) → Run (first_machine count limit capacity asks) events replies last
        → (dumps : List (List Write)) → AreDumpsOf last dumps → IsJudgedClean count (entries_of last) dumps }
{
    a_vector_is_of_one_database();
    a_verdict_is_one();
}

/// Over every run the book, in which refusals stand too and served operations may still be missing, and what each server holds have one answer
/// of the judge: that each session had what it asked for. Where no entry waits to be filed they stand for the very history that the machine has.
pub fn every_book_is_judged_clean()
    ensures history { (count limit capacity : ℕ) (asks : ℕ → Option Asks) (events : List Event) (replies : List Reply) (last : Machine) → Run (first_machine count limit capacity asks) events replies last
        → ((who : ℕ) (session : SessionSets) → last.sessions who ≡ Some session → session.waiting ≡ [])
        → (dumps : List (List Write)) → AreDumpsOf last dumps → AreOneHistory (history_of last.filed dumps) (history_of_machine last) }
    ensures clean { (count limit capacity : ℕ) (asks : ℕ → Option Asks) (events : List Event) (replies : List Reply) (last : Machine) → Run (first_machine count limit capacity asks) events replies last
        → (dumps : List (List Write)) → AreDumpsOf last dumps → IsJudgedClean count last.filed dumps }
{
    a_vector_is_of_one_database();
    a_verdict_is_one();
}

/// Over every run a name is of one Write, what each server holds is sound and prefix-closed, of another server's Writes it holds the
/// first ones, and a Write says of its past just what is in it.
pub fn every_run_is_consistent()
    ensures { (count limit capacity : ℕ) (asks : ℕ → Option Asks) (events : List Event) (replies : List Reply) (last : Machine) → Run (first_machine count limit capacity asks) events replies last
        → IsConsistent last }
{
    count_is_the_number_of_writes();
}

/// Over every run a server holds a set exactly where its vector dominates the set's; it holds the past of an item exactly where that leaves
/// no gap by the counts; and an offer has a Write exactly where its vector covers it.
pub fn sets_and_vectors_agree()
    ensures sets { (count limit capacity : ℕ) (asks : ℕ → Option Asks) (events : List Event) (replies : List Reply) (last : Machine) → Run (first_machine count limit capacity asks) events replies last
        → TestsAgree last }
    ensures items { (count limit capacity : ℕ) (asks : ℕ → Option Asks) (events : List Event) (replies : List Reply) (last : Machine) → Run (first_machine count limit capacity asks) events replies last
        → ItemTestsAgree last }
{}

/// A session's two vectors, where it learns of just the answers that reach it, stand for its two sets: as it begins, after each answer
/// that it hears, and so along every run. A server holds what the session needs, as sets, exactly where its vector dominates the join that
/// is the session's need.
pub fn a_sessions_vectors_stand_for_its_sets()
    ensures begins { (id : SessionId) (run : ℕ) (asks : Asks) → StandsFor (first_told id run asks) (new_session asks) }
    ensures hears { (count limit capacity : ℕ) (asks : ℕ → Option Asks) (events : List Event) (replies : List Reply) (last : Machine) → Run (first_machine count limit capacity asks) events replies last
        → (who : ℕ) (session : SessionSets) (answered : Answered) → last.sessions who ≡ Some session → session.flight ≡ Some answered
        → (old new : Told) → StandsFor old session → IsToldOf answered.entry.what old new → StandsFor new (heard answered session) }
    ensures along { (count limit capacity : ℕ) (asks : ℕ → Option Asks) (who : ℕ) (id : SessionId) (run : ℕ) (wants : Asks) (events : List Event) (replies : List Reply) (last : Machine) (told : Told)
        → asks who ≡ Some wants → RunTelling who (first_machine count limit capacity asks) (first_told id run wants) events replies last told
        → (session : SessionSets) → last.sessions who ≡ Some session → StandsFor told session }
    ensures needs { (count limit capacity : ℕ) (asks : ℕ → Option Asks) (events : List Event) (replies : List Reply) (last : Machine) → Run (first_machine count limit capacity asks) events replies last
        → (session : SessionSets) (told : Told) → StandsFor told session → NeedsAgree last session told }
{
    read_need_is_what_is_asked();
    write_need_is_what_is_asked();
}

/// Over every run no two Writes have one tag, be they held, in doubt or in flight, and whichever servers made them; a tag is of an asking of
/// its session, and a Write under the tag of what a session may ask again was made for that, by the server that was asked, after what the
/// session needs, and no session learned of it. So the Writes that a server holds have tags of their own, and the one in doubt there has
/// another.
pub fn a_tag_is_of_one_write()
    ensures tagged { (count limit capacity : ℕ) (asks : ℕ → Option Asks) (events : List Event) (replies : List Reply) (last : Machine) → Run (first_machine count limit capacity asks) events replies last
        → AreTagged last }
    ensures apart { (count limit capacity : ℕ) (asks : ℕ → Option Asks) (events : List Event) (replies : List Reply) (last : Machine) → Run (first_machine count limit capacity asks) events replies last
        → (place : ℕ) → HasDistinctTags (last.servers place) }
{}

/// Over every run no item is refused because another Write of its name is held, because its server made it and lost it, or because
/// its stamp is wrong. No Write that is asked for the first time is answered as one that is held already, nor is one, the first time or
/// again, refused because another is held under its tag.
pub fn no_item_is_impossible()
    ensures { (count limit capacity : ℕ) (asks : ℕ → Option Asks) (events : List Event) (replies : List Reply) (last : Machine) → Run (first_machine count limit capacity asks) events replies last
        → All (λ reply. ¬ IsImpossible reply) replies }
{}

/// Over every run no server's own rules, which have a case for each answer, let it refuse an item because another Write of its name is
/// held, because it made the Write itself and doesn't hold it, or because its stamp is wrong: each answer that they allow is one of the
/// machine's Take, and leaves the same. Where whatever an opening of its journal finds is what was held, or that and the Write in doubt,
/// they let no reopening say that a Write is lost, or that a record is bad.
pub fn the_rules_of_servers_refuse_nothing_impossible<D: Device>()
    ensures takes { (count limit capacity : ℕ) (asks : ℕ → Option Asks) (events : List Event) (replies : List Reply) (last : Machine) → Run (first_machine count limit capacity asks) events replies last
        → (place item : ℕ) (made : Made) → slice_get last.items item ≡ Some made
        → (answer : Result Taken TakeFault) (new : Core) → Takes (core_at last place) made.write answer new → ¬ IsImpossible (replies_of.Took answer) }
    ensures rows { (count limit capacity : ℕ) (asks : ℕ → Option Asks) (events : List Event) (replies : List Reply) (last : Machine) → Run (first_machine count limit capacity asks) events replies last
        → (place item : ℕ) (made : Made) → IsGiven last place item made → (answer : Result Taken TakeFault) (new : Core) → Takes (core_at last place) made.write answer new
        → (next : Machine) × TakeStep last place item (replies_of.Took answer) next × (new ≡ core_at next place) }
    ensures reopens { (old new : ServerState D) (answer : Result Reopened ReopenFault) → OpensHonestly D.Device old
        → Reopens old.core answer new.core → ReopensJournal D.Device old answer new → ¬ FindsOthers answer }
{}

/// Over every run a server goes on holding what it held, in its order, with more after that, and items in flight stay there: so an item
/// that is held at some time is held ever after.
pub fn what_is_held_stays_held()
    ensures held { (old new : Machine) (events : List Event) (replies : List Reply) → Run old events replies new
        → (place : ℕ) → (later : List Made) × ((new.servers place).held ≡ (old.servers place).held ++ later) }
    ensures items { (old new : Machine) (events : List Event) (replies : List Reply) → Run old events replies new → (later : List Made) × (new.items ≡ old.items ++ later) }
    ensures names { (old new : Machine) (events : List Event) (replies : List Reply) → Run old events replies new
        → (place : ℕ) (made : Made) → HoldsName (old.servers place) made → HoldsName (new.servers place) made }
{}

/// The items of one Collect, taken in their order by the server that made the offer, leave no gap: none is refused for one once those
/// before it are held, whatever else happens between.
pub fn items_in_order_leave_no_gap()
    ensures { (count limit capacity : ℕ) (asks : ℕ → Option Asks) (events : List Event) (replies : List Reply) (old now : Machine) → Run (first_machine count limit capacity asks) events replies old
        → (server offer number at : ℕ) → IsTakenUpTo old now server offer number at
        → (reply : Reply) (last : Machine) → TakeStep now server (length old.items + at) reply last → reply ≢ replies_of.Took (Err Gap) }
{}

/// Over every run each vector that a server tells, in its answer to a read or to a program, asked for the first time or again, is a view of
/// that server. So is what a held Write says that its server held, and this with the Write itself. The join of two views of one server
/// is a view of it. What a server holds it had, ever after.
pub fn what_answers_tell_is_a_view()
    ensures reads { (count limit capacity : ℕ) (asks : ℕ → Option Asks) (now : Machine) → Leads (first_machine count limit capacity asks) now
        → (who place : ℕ) (key : List ℕ) (answer : Result Seen Behind) (new : Machine) → ReadStep now who place key (replies_of.Read answer) new → (view : List ℕ) → TellsRead answer view → IsView now place view }
    ensures programs { (count limit capacity : ℕ) (asks : ℕ → Option Asks) (now : Machine) → Leads (first_machine count limit capacity asks) now
        → (who place : ℕ) (program : Program) (answer : Result Written WriteFault) (new : Machine) → WriteStep now who place program (replies_of.Wrote answer) new
        → (view : List ℕ) → TellsWrite answer view → IsView now place view }
    ensures again { (count limit capacity : ℕ) (asks : ℕ → Option Asks) (now : Machine) → Leads (first_machine count limit capacity asks) now
        → (who : ℕ) (server : ServerId) (answer : Result Written WriteFault) (new : Machine) → AgainStep now who (replies_of.AskedAgain server answer) new
        → (view : List ℕ) → TellsWrite answer view → IsView now server.index view }
    ensures writes { (count limit capacity : ℕ) (asks : ℕ → Option Asks) (now : Machine) → Leads (first_machine count limit capacity asks) now
        → (place : ℕ) (made : Made) → Contains (now.servers place).held made
        → IsView now made.write.wid.origin.index made.write.deps × IsView now made.write.wid.origin.index (raised made.write.deps made.write.wid) }
    ensures join { (count limit capacity : ℕ) (asks : ℕ → Option Asks) (now : Machine) → Leads (first_machine count limit capacity asks) now
        → (place : ℕ) (view other : List ℕ) → IsView now place view → IsView now place other → IsView now place (joined view other) }
    ensures had { (count limit capacity : ℕ) (asks : ℕ → Option Asks) (now : Machine) → Leads (first_machine count limit capacity asks) now
        → (last : Machine) → Leads now last → (place : ℕ) → Had last place (writes (now.servers place).held) }
{}

/// Let there be a view of each server, of whatever time. A Write that each server had by its view is known, and no other Write that is ever
/// held. A Write whose server hadn't made it by its view has each known Write in its past, and comes after it, whatever the run goes on with.
pub fn what_is_known_comes_before_what_is_made_later()
    ensures known { (count limit capacity : ℕ) (asks : ℕ → Option Asks) (told : Machine) → Leads (first_machine count limit capacity asks) told → (views : ℕ → List ℕ) → AreViews told views
        → (write : Write) → ((place : ℕ) (database : List Write) → place < count → Had told place database → views place ≡ count_of database → Contains database write) → IsKnown count views write.wid }
    ensures had { (count limit capacity : ℕ) (asks : ℕ → Option Asks) (told : Machine) → Leads (first_machine count limit capacity asks) told → (views : ℕ → List ℕ) → AreViews told views
        → (now : Machine) → Leads told now → (server : ℕ) (made : Made) → Contains (now.servers server).held made → IsKnown count views made.write.wid
        → (place : ℕ) (database : List Write) → place < count → Had told place database → views place ≡ count_of database → Contains database made.write }
    ensures later { (count limit capacity : ℕ) (asks : ℕ → Option Asks) (told : Machine) → Leads (first_machine count limit capacity asks) told → (views : ℕ → List ℕ) → AreViews told views
        → (now : Machine) → Leads told now → (server place : ℕ) (made known : Made) → Contains (now.servers server).held made → Contains (now.servers place).held known
        → slice_index (views made.write.wid.origin.index) made.write.wid.origin.index < made.write.wid.seq → IsKnown count views known.write.wid
        → Contains made.past known.write × (is_before known.write.stamp made.write.stamp ≡ true) }
{}

/// Let there be a view of each server, of whatever time, and two databases, of whatever servers and later times, even of two runs that go on
/// from there. If each has what every server had made itself by its view, they are the same up to each known Write: the same Writes in the same
/// order, with the same outcomes, and the same database after them. What is final in the one is final in the other. A server that holds that
/// much goes on so.
pub fn what_is_final_stays_final()
    ensures same { (count limit capacity : ℕ) (asks : ℕ → Option Asks) (told : Machine) → Leads (first_machine count limit capacity asks) told → (views : ℕ → List ℕ) → AreViews told views
        → (one other : Machine) → Leads told one → Leads told other → (server place : ℕ) (database another : List Write) → Had one server database → Had other place another
        → HasOwn count views database → HasOwn count views another → (stamp : Stamp) → IsKnownStamp count views database stamp
        → (up_to stamp database ≡ up_to stamp another) × BeginsWith (up_to stamp database) database × BeginsWith (up_to stamp database) another }
    ensures stays { (count limit capacity : ℕ) (asks : ℕ → Option Asks) (told : Machine) → Leads (first_machine count limit capacity asks) told → (views : ℕ → List ℕ) → AreViews told views
        → (one other : Machine) → Leads told one → Leads told other → (server place : ℕ) (database another : List Write) → Had one server database → Had other place another
        → HasOwn count views another → (write : Write) → IsFinal count views database write → IsFinal count views another write }
    ensures held { (old new : Machine) → Leads old new → (count : ℕ) (views : ℕ → List ℕ) (place : ℕ)
        → HasOwn count views (writes (old.servers place).held) → HasOwn count views (writes (new.servers place).held) }
{}

/// Each database has a longest beginning, in stamp order, of Writes that are known. Where the database has what every server had made itself by
/// its view, each of them is final; each other such database, of whatever server and later time, has the same longest one. And each server, at
/// whatever later time and whatever it lacks, begins with these Writes: they have the same outcomes there, and the same database after them.
pub fn a_known_beginning_is_final()
    ensures longest { (count : ℕ) (views : ℕ → List ℕ) (database : List Write) → (first : List Write) × IsKnownBeginning count views database first }
    ensures each { (count : ℕ) (views : ℕ → List ℕ) (database first : List Write) → HasOwn count views database → IsKnownBeginning count views database first → All (IsFinal count views database) first }
    ensures same { (count limit capacity : ℕ) (asks : ℕ → Option Asks) (told : Machine) → Leads (first_machine count limit capacity asks) told → (views : ℕ → List ℕ) → AreViews told views
        → (one other : Machine) → Leads told one → Leads told other → (server place : ℕ) (database another : List Write) → Had one server database → Had other place another
        → HasOwn count views database → HasOwn count views another → (first : List Write) → IsKnownBeginning count views database first
        → IsKnownBeginning count views another first × BeginsWith first another }
    ensures everywhere { (count limit capacity : ℕ) (asks : ℕ → Option Asks) (told : Machine) → Leads (first_machine count limit capacity asks) told → (views : ℕ → List ℕ) → AreViews told views
        → (one other : Machine) → Leads told one → Leads told other → (server : ℕ) (database first : List Write) → Had one server database
        → HasOwn count views database → IsKnownBeginning count views database first → (place : ℕ) → place < count → BeginsWith first (writes (other.servers place).held) }
{}

/// Over every run each step that a server may take by its own rules is a row of the machine's, and leaves the same server: its answer to a
/// session, to a Collect, to a reopening or to a start. All else is as it was, but for the session that was answered or the items that were
/// sent. What an opening of its journal finds must be what was held, or that and the Write in doubt.
pub fn the_steps_of_servers_are_rows()
    ensures reads { (count limit capacity : ℕ) (asks : ℕ → Option Asks) (events : List Event) (replies : List Reply) (last : Machine) → Run (first_machine count limit capacity asks) events replies last
        → (who : SessionId) (place : ServerId) (session : SessionSets) (told : Told) → MayBegin last who.index place.index session → StandsFor told session
        → (key : List ℕ) (answer : Result Seen Behind) → Reads (core_at last place.index) (read_need told) key answer
        → (next : Machine) × Step last (events_of.Read who place key) (replies_of.Read answer) next
        × IsAnsweredAt last who.index place.index session None (told_of_read key answer) (core_at last place.index) next }
    ensures writes { (count limit capacity : ℕ) (asks : ℕ → Option Asks) (events : List Event) (replies : List Reply) (last : Machine) → Run (first_machine count limit capacity asks) events replies last
        → (who : SessionId) (place : ServerId) (session : SessionSets) (told : Told) → MayBegin last who.index place.index session → StandsFor told session
        → (tag : Tag) → IsTagOf who.index (session.begun + 1) tag → (program : Program) (answer : Result Written WriteFault) (new : Core) → Writes (core_at last place.index) tag (write_need told) program answer new
        → (next : Machine) × Step last (events_of.Write who place program) (replies_of.Wrote answer) next
        × IsAnsweredAt last who.index place.index session (Some (first_asking place.index session program)) (told_of_program answer) new next }
    ensures agains { (count limit capacity : ℕ) (asks : ℕ → Option Asks) (events : List Event) (replies : List Reply) (last : Machine) → Run (first_machine count limit capacity asks) events replies last
        → (who : SessionId) (place : ServerId) (session : SessionSets) (told : Told) → StandsFor told session → (asking : Asking) → session.asked ≡ Some asking → place.index ≡ asking.server
        → MayBegin last who.index asking.server session → (tag : Tag) → IsTagOf who.index asking.number tag
        → (answer : Result Written WriteFault) (new : Core) → Writes (core_at last asking.server) tag (write_need told) asking.program answer new
        → (next : Machine) × Step last (events_of.Again who) (replies_of.AskedAgain place answer) next
        × IsAnsweredAt last who.index asking.server session (Some asking) (told_of_program answer) new next }
    ensures collects { (count limit capacity : ℕ) (asks : ℕ → Option Asks) (events : List Event) (replies : List Reply) (last : Machine) → Run (first_machine count limit capacity asks) events replies last
        → (place : ServerId) (offer : ℕ) (offered : Offered) → IsRunning last place.index → slice_get last.offers offer ≡ Some offered
        → (lacking : List Made) × (writes lacking ≡ lacking_of (count_of offered.database) (writes (last.servers place.index).held)) × (length last.items + max (length lacking) 1 ≤ MAX_NUMBER + 1
        → Step last (events_of.Collect place offer) (replies_of.Flown (length last.items) (length lacking)) (record last { items = last.items ++ lacking })) }
    ensures reopens { (count limit capacity : ℕ) (asks : ℕ → Option Asks) (events : List Event) (replies : List Reply) (last : Machine) → Run (first_machine count limit capacity asks) events replies last
        → (place : ServerId) → IsRunning last place.index → (answer : Result Reopened ReopenFault) (new : Core) → IsHonestAnswer answer → Reopens (core_at last place.index) answer new
        → (next : Machine) × Step last (events_of.Reopen place) (replies_of.Reopened answer) next × IsOnlyServer last place.index new next }
    ensures starts { (count limit capacity : ℕ) (asks : ℕ → Option Asks) (events : List Event) (replies : List Reply) (last : Machine) → Run (first_machine count limit capacity asks) events replies last
        → (place : ServerId) → place.index < last.count → (new : Core) → Starts place.index last.count last.limit new
        → AreHonest (records_of (core_at last place.index)) (record_in_doubt (core_at last place.index)) (records_of new)
        → (next : Machine) × Step last (events_of.Restart place) (replies_of.Restarted (Ok (length new.held))) next × IsOnlyServer last place.index new next }
    ensures refused { (count limit capacity : ℕ) (asks : ℕ → Option Asks) (events : List Event) (replies : List Reply) (last : Machine) → Run (first_machine count limit capacity asks) events replies last
        → (place : ServerId) → place.index < last.count → (fault : StartFault) → IsHonestRefusal fault
        → (next : Machine) × Step last (events_of.Restart place) (replies_of.Restarted (Err fault)) next × IsOnlyServer last place.index (core_at last place.index) next }
{
    read_need_is_what_is_asked();
    write_need_is_what_is_asked();
}
