use std::net::{Net, TcpListener, TcpStream};

/// A runtime that opens sockets of this system.
pub trait Sockets: Net<Stream = TcpStream, Listener = TcpListener> {}

impl<T: Net<Stream = TcpStream, Listener = TcpListener>> Sockets for T {}
