//! What a server made is never refused: a law is the contract of a function that does nothing.
ghost use Rattle.std.specs.Prelude.{◌≡◌, ℕ, List, Contains};
ghost use Rattle.bayou_lang.specs.declared.write.Write.{Write};
ghost use Rattle.bayou_lang.specs.Writes.{IsSound};
ghost use Rattle.bayou_restore.specs.Restoring.{IsHistory, IsOwnAmong};

/// Some Writes are a history of a server where its journal, all that it ever held in the order of receipt, has its own ones among them, and
/// no other Write under the name of one of them.
pub fn what_a_server_made_is_a_history()
    ensures { (server count : ℕ) (journal writes : List Write) → IsSound server count journal
        → ((write : Write) → IsOwnAmong server writes write → Contains journal write)
        → ((write other : Write) → Contains writes write → Contains journal other → write.wid ≡ other.wid → write ≡ other)
        → IsHistory server writes }
{}
