//! Links to all servers of a run.
ghost use Rattle.std.specs.Prelude.{◌≡◌, IfOk, length, vec_len};

use crate::fault::FleetFault;
use bayou_client::Link;
use bayou_net::Sockets;
use std::alloc::Global;
use std::net::{SocketAddr, TcpStream};

/// A link over a socket.
pub type SocketLink = Link<TcpStream, TcpStream>;

/// A connection to whoever listens there, by which small requests go at once.
pub(crate) fn reach<T: Sockets>(rt: &T, address: SocketAddr) -> Option<TcpStream> {
    let Ok(stream) = TcpStream::connect(rt, address) else {
        return None;
    };
    // A socket that doesn't take this option sends small requests later.
    let _ = stream.set_nodelay(true);
    Some(stream)
}

// A link to whoever listens there, if one comes about.
fn link_to<T: Sockets>(rt: &T, address: SocketAddr) -> Option<SocketLink> {
    let writer = reach(rt, address)?;
    let Ok(reader) = writer.try_clone() else {
        return None;
    };
    Some(Link::new(reader, writer))
}

/// Puts a new link to the server in this link's place. Where none comes about, the link stays.
pub(crate) fn renew<T: Sockets>(
    rt: &T,
    addresses: &[SocketAddr],
    at: usize,
    link: &mut SocketLink,
) {
    let Some(address) = addresses.get(at) else {
        return;
    };
    if let Some(renewed) = link_to(rt, *address) {
        *link = renewed;
    }
}

/// A link to each server.
pub(crate) fn links_to<T: Sockets>(
    rt: &T,
    alloc: Global,
    addresses: &[SocketAddr],
) -> Result<Vec<SocketLink>, FleetFault>
    ensures { IfOk result (λ links. vec_len links ≡ length addresses.now) }
{
    let mut links = Vec::new(alloc);
    for address in addresses {
        let Some(link) = link_to(rt, *address) else {
            return Err(FleetFault::Network);
        };
        links.push(link)?;
    }
    Ok(links)
}
