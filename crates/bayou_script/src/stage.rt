//! Where a command may stand in a script: what the lines before it started and opened.
ghost use Rattle.std.specs.Prelude.{◌≡◌, ◌≤◌, [], ◌∷◌, ◌++◌, ℕ, List, Option, Some, IsTrue};
ghost use Rattle.bayou_script.specs.Inner.Using.{server_numbers};
ghost use Rattle.bayou_script.specs.Script.{are_servers};

use crate::script::Servers;
use crate::uses::{UsedServers, Uses};
use bayou_base::{DEFAULT_LIMIT, SESSIONS, SessionId};

/// Whether these are servers that there are, none of them twice.
#[tactic(auto, unfolding(crate::specs::Script::are_servers))]
fn are_servers(count: u8, used: UsedServers) -> bool
    ensures { result ≡ are_servers count (server_numbers used) }
{
    match used {
        UsedServers::Nowhere => true,
        UsedServers::At(server) => server.index < count,
        UsedServers::Between(to, from) => {
            to.index < count && from.index < count && from.index != to.index
        }
    }
}

/// What the front of a script started and opened.
#[derive(Drop)]
pub(crate) struct Stage {
    /// `None` before the first line that isn't empty.
    pub servers: Option<Servers>,
    /// Which sessions were opened.
    opened: [bool; SESSIONS],
}

impl Stage {
    ghost use Rattle.bayou_base.specs.declared.limits.TheConstants.{NET_SERVERS as MOST_OVER_NETWORK};
    ghost use Rattle.bayou_text.specs.Said.{Said, servers as servers_line};
    ghost use Rattle.bayou_text.specs.Table.{Spells};
    ghost use Rattle.bayou_script.specs.Inner.Stage.{IsStageOf};
    ghost use Rattle.bayou_script.specs.Inner.Started.{are_few, are_started};
    ghost use Rattle.bayou_script.specs.Inner.Using.{AreUses};
    ghost use Rattle.bayou_script.specs.Script.{Use, has_place, is_behind, is_open, use_of};

    /// Nothing was said.
    pub fn new() -> Self
        ensures { IsStageOf result [] [] }
    {
        Stage {
            servers: None,
            opened: [false; SESSIONS],
        }
    }

    /// Starts so many servers, where none were started, and answers whether that was so.
    pub fn start(&mut self, count: u8, limit: Option<u32>) -> bool
        requires { (bytes : List ℕ) × Spells bytes (servers_line count limit) }
        ensures place { (others front : List Said) → IsStageOf self.old others front → result ≡ has_place front (servers_line count limit) }
        ensures stage { (others front : List Said) → IsStageOf self.old others front
            → IsTrue result → IsStageOf self.new others (front ++ servers_line count limit ∷ []) }
        ensures few { IsTrue (are_few self.old.servers) → count ≤ MOST_OVER_NETWORK → IsTrue (are_few self.new.servers) }
        // Those that a command was said to stay.
        ensures started { (numbers : List ℕ) → IsTrue (are_started self.old.servers numbers) → IsTrue (are_started self.new.servers numbers) }
    {
        if self.servers.is_some() {
            return false;
        }
        let limit = limit.unwrap_or(DEFAULT_LIMIT);
        self.servers = Some(Servers { count, limit });
        true
    }

    fn is_open(&self, session: SessionId) -> bool
        ensures { (others front : List Said) → IsStageOf self.now others front → result ≡ is_open session.index front }
    {
        self.opened[usize::from(session.index)]
    }

    /// Whether a command that uses this may stand after the line that started the servers.
    fn is_behind(&self, servers: Servers, uses: Uses) -> bool
        requires { self.now.servers ≡ Some servers }
        ensures place { (others front : List Said) (used : Use) → IsStageOf self.now others front → AreUses uses used → result ≡ is_behind front used }
        ensures served { IsTrue result → IsTrue (are_servers servers.count (server_numbers uses.servers)) }
    {
        let opens_once = match uses.opens {
            Some(session) => !self.is_open(session),
            None => true,
        };
        let speaks_for_one_that_is_open = match uses.session {
            Some(session) => self.is_open(session),
            None => true,
        };
        opens_once && speaks_for_one_that_is_open && are_servers(servers.count, uses.servers)
    }

    /// Whether a command that uses this may stand after what was said. The session that it opens is open from then on.
    pub fn admit(&mut self, uses: Uses) -> bool
        ensures place { (others front : List Said) (used : Use) → IsStageOf self.old others front → AreUses uses used → result ≡ is_behind front used }
        ensures stage { (others front : List Said) (told : Said) → IsStageOf self.old others front → AreUses uses (use_of told)
            → IsTrue result → IsStageOf self.new (others ++ told ∷ []) (front ++ told ∷ []) }
        ensures served { IsTrue result → IsTrue (are_started self.new.servers (server_numbers uses.servers)) }
        ensures same { self.new.servers ≡ self.old.servers }
    {
        let Some(servers) = self.servers else {
            return false;
        };
        if !self.is_behind(servers, uses) {
            return false;
        }
        if let Some(session) = uses.opens {
            self.opened[usize::from(session.index)] = true;
        }
        true
    }
}
