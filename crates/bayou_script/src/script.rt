ghost use Rattle.std.specs.Prelude.{◌<◌, ◌≤◌, IsTrue};
ghost use Rattle.std.specs.List.{list_all};
ghost use Rattle.bayou_base.specs.declared.limits.TheConstants.{NET_SERVERS, SERVERS, MAX_WRITES};
ghost use Rattle.bayou_text.specs.Said.{command_said};
ghost use Rattle.bayou_script.specs.NetworkSaid.{network_said};
ghost use Rattle.bayou_script.specs.Script.{is_served};

use crate::network::NetworkCommand;
use bayou_text::Command;
use std::collections::VecDeque;

/// The servers that a script starts.
#[derive(Clone, Copy, Debug, PartialEq, Eq)]
pub struct Servers {
    /// How many there are, from server 0 on.
    pub count: u8,
    /// How many Writes each may hold.
    pub limit: u32,
    pub ghost count_in_range: { (0 < count) × (count ≤ SERVERS) },
    pub ghost limit_in_range: { (0 < limit) × (limit ≤ MAX_WRITES) },
}

/// A script, each line of which is in its place.
#[derive(Drop)]
pub struct Script {
    pub servers: Servers,
    /// In the order of their lines.
    pub commands: VecDeque<Command>,
    pub ghost served: { IsTrue (list_all (λ command. is_served servers.count (command_said command)) commands.items) },
}

/// A script over a network, each line of which is in its place.
#[derive(Drop)]
pub struct NetworkScript {
    pub servers: Servers,
    /// In the order of their lines.
    pub commands: VecDeque<NetworkCommand>,
    pub ghost few: { servers.count ≤ NET_SERVERS },
    pub ghost served: { IsTrue (list_all (λ command. is_served servers.count (network_said command)) commands.items) },
}
