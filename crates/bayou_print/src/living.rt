//! The lines of a server that lives.
ghost use Rattle.std.specs.Prelude.{◌≡◌, ◌≤◌, IfOk, string_bytes};
ghost use Rattle.bayou_base.specs.declared.limits.TheConstants.{SERVERS};
ghost use Rattle.bayou_print.specs.Living.{held_text, serving_text};

use crate::printed::Counts;
use bayou_base::{ServerId, Vector};
use std::alloc::{AllocError, Global};

/// The line of a server that takes connections at this address from now on, and of what it holds.
pub fn serving_line(
    alloc: Global,
    server: ServerId,
    address: &str,
    servers: u8,
    vector: &Vector,
) -> Result<String, AllocError>
    requires { servers ≤ SERVERS }
    ensures { IfOk result (λ line. string_bytes line ≡ serving_text server.index address.now servers vector.now) }
{
    let server = server.index;
    let counts = Counts { vector, servers };
    format!(in alloc; "serving {server} at {address} holds {counts}\n")
}

/// The line of what a server holds, which closes a log too.
pub fn held_line(
    alloc: Global,
    server: ServerId,
    servers: u8,
    vector: &Vector,
) -> Result<String, AllocError>
    requires { servers ≤ SERVERS }
    ensures { IfOk result (λ line. string_bytes line ≡ held_text server.index servers vector.now) }
{
    let server = server.index;
    let counts = Counts { vector, servers };
    format!(in alloc; "log {server} at {counts}\n")
}
