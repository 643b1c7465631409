//! The network, with what doors ask of it.

use std::io;
use std::net::{Net, SocketAddr, TcpListener, TcpStream};

/// The network of the program, which prints each address at which a door asks to listen. Where it
/// opens none, it refuses them.
#[derive(Drop)]
pub struct ShownNet<'a> {
    pub rt: &'a HostRuntime,
    pub opens: bool,
}

impl Net for ShownNet<'_> {
    type Stream = TcpStream;

    type Listener = TcpListener;

    fn bind(&self, addr: SocketAddr) -> io::Result<TcpListener> {
        println!(self.rt; "= a door asks for {addr}")?;
        if self.opens {
            self.rt.bind(addr)
        } else {
            Err(io::Error::from(io::ErrorKind::PermissionDenied))
        }
    }

    fn connect(&self, addr: SocketAddr) -> io::Result<TcpStream> {
        self.rt.connect(addr)
    }
}
