//! What the needs of a session mean, in words of what a server holds: theorems, each the contract of a function that does
//! nothing.
ghost use Rattle.std.specs.Prelude.{◌≡◌, ◌↔◌, ℕ, List, true, length};
ghost use Rattle.bayou_base.specs.declared.limits.TheConstants.{SERVERS};
ghost use Rattle.bayou_base.specs.Vector.{Dominates};
ghost use Rattle.bayou_session.specs.Needs.{Told, read_need, write_need};

/// A server dominates the need of a read exactly where it dominates the session's Writes, if Read Your Writes is asked, and
/// what its reads saw, if Monotonic Reads is.
pub fn read_need_is_what_is_asked()
    ensures { (session : Told) (held : List ℕ) → length session.reads ≡ SERVERS → length session.writes ≡ SERVERS
        → Dominates held (read_need session)
        ↔ ((session.asks.ryw ≡ true → Dominates held session.writes) × (session.asks.mr ≡ true → Dominates held session.reads)) }
{}

/// A server dominates the need of a Write exactly where it dominates what the session's reads saw, if Writes Follow Reads
/// is asked, and the session's Writes, if Monotonic Writes is.
pub fn write_need_is_what_is_asked()
    ensures { (session : Told) (held : List ℕ) → length session.reads ≡ SERVERS → length session.writes ≡ SERVERS
        → Dominates held (write_need session)
        ↔ ((session.asks.wfr ≡ true → Dominates held session.reads) × (session.asks.mw ≡ true → Dominates held session.writes)) }
{}
