//! What a server is as its node is made.
ghost use Rattle.std.specs.Prelude.{◌≡◌, ◌↔◌, true};
ghost use Rattle.bayou_node.specs.Books.{begun_of};

use bayou_device::Device;
use bayou_server::Server;
use std::marker::Model;

/// A server as its node is made: which it is, and among how many; how many Writes it may hold; and how many it had made itself.
#[derive(Clone, Copy, PartialEq, Eq)]
pub struct Begun {
    server: u8,
    count: u8,
    limit: u32,
    stored: u32,
}

impl Model for Begun {
    ghost use Rattle.bayou_node.specs.Books.{Begun as Made};

    ghost Value = { Made };

    ghost view = { λ b. record { server = b.server; count = b.count; limit = b.limit; stored = b.stored } };

    ghost inverse = { λ b. record { server = b.server; count = b.count; limit = b.limit; stored = b.stored } };
}

impl Begun {
    /// The server as it is now.
    pub fn of<D: Device>(server: &Server<D>) -> Self
        ensures { result ≡ begun_of server.now.core }
    {
        let id = server.id();
        Begun {
            server: id.index,
            count: server.count(),
            limit: server.limit(),
            stored: server.vector().get(id),
        }
    }
}
