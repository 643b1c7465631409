//! Links and doors over TCP. They are the trusted edge: nothing is proved of what a real link
//! carries.

ghost use Rattle.std.specs.Prelude.{◌≡◌, ◌≤◌, ◌+◌, None, [], true, false};

use crate::fault::fault;
use cf_base::Failed;
use cf_http::{Door, Link};
use std::alloc::{AllocError, Global};
use std::io::{self, Read, Write};
use std::net::{Net, Shutdown, TcpListener, TcpStream};
use std::time::Duration;

/// How many seconds a read waits for bytes, and a write for room, before it is a fault.
const PATIENCE: u64 = 10;

/// How many seconds such a read waits that only lets unread bytes go.
const REST_PATIENCE: u64 = 1;

/// How many reads let unread bytes go, before a link is closed.
const MOST_REST_READS: u32 = 64;

/// How often `next` tries to get a connection, before it fails.
const MOST_TRIES: u32 = 16;

/// A connection over TCP.
#[derive(Drop)]
pub struct TcpLink {
    stream: TcpStream,
    ended: bool,
    read_faults: u64,
    write_faults: u64,
}

impl TcpLink {
    /// Tells the peer that nothing more comes, and from then on waits a shorter time for its bytes.
    fn end_writing(&self) -> io::Result<()> {
        self.stream.shutdown(Shutdown::Write)?;
        let patience = Duration::from_secs(REST_PATIENCE);
        self.stream.set_read_timeout(Some(patience))
    }

    /// Closes the connection. Bytes that the peer sent and nobody read would have the system reset
    /// it, and the peer could lose the last answer: so the end is told first, and a bounded rest is
    /// read. A link that failed is closed at once.
    fn close(mut self) {
        let is_failed = self.read_faults > 0 || self.write_faults > 0;
        if self.ended || is_failed || self.end_writing().is_err() {
            return;
        }
        let mut rest = [0u8; 4096];
        for _ in 0..MOST_REST_READS {
            match self.stream.read(&mut rest) {
                Ok(count) if count > 0 => {}
                _ => return,
            }
        }
    }
}

impl Link for TcpLink {
    ghost tells = { λ l. record {
      input = record { received = None; ended = l.ended; reads = None; faults = l.read_faults };
      output = record { sent = None; faults = l.write_faults };
    } };

    fn read(&mut self, buf: &mut [u8]) -> Result<usize, Failed> {
        match self.stream.read(buf) {
            Ok(count) => {
                self.ended = self.ended || (count == 0 && !buf.is_empty());
                Ok(count)
            }
            Err(_) => Err(fault(&mut self.read_faults)),
        }
    }

    fn write(&mut self, piece: &[u8]) -> Result<usize, Failed> {
        match self.stream.write(piece) {
            Ok(count) if count > 0 || piece.is_empty() => Ok(count),
            _ => Err(fault(&mut self.write_faults)),
        }
    }
}

/// A door that listens on 127.0.0.1 at a port, from its first `next` or `port` on.
#[derive(Drop)]
pub struct TcpDoor<'a, R: Net<Listener = TcpListener, Stream = TcpStream>> {
    net: &'a R,
    port: u16,
    patience: Duration,
    listener: Option<TcpListener>,
    given: u64,
    faults: u64,
}

/// Sets how long reads and writes wait, and has answers sent at once.
fn set_up(stream: &TcpStream, patience: Duration) -> io::Result<()> {
    stream.set_read_timeout(Some(patience))?;
    stream.set_write_timeout(Some(patience))?;
    stream.set_nodelay(true)
}

/// The next connection, if the door listens. One that is broken before it can be served is passed
/// over.
fn accepted(listener: &Option<TcpListener>, patience: Duration) -> Option<TcpStream> {
    let Some(listener) = listener else {
        return None;
    };
    for _ in 0..MOST_TRIES {
        if let Ok((stream, _)) = listener.accept() {
            if set_up(&stream, patience).is_ok() {
                return Some(stream);
            }
        }
    }
    None
}

impl<'a, R: Net<Listener = TcpListener, Stream = TcpStream>> TcpDoor<'a, R> {
    /// A door at a port, or at one that the system picks for port 0. A peer that sends or takes
    /// nothing for 10 seconds ends its link by a fault.
    pub fn new(net: &'a R, port: u16) -> Self {
        TcpDoor::patient(net, port, Duration::from_secs(PATIENCE))
    }

    /// A door at a port whose peers may send or take nothing for so long, which isn't 0, before
    /// their link ends by a fault.
    pub fn patient(net: &'a R, port: u16, patience: Duration) -> Self {
        TcpDoor {
            net,
            port,
            patience,
            listener: None,
            given: 0,
            faults: 0,
        }
    }

    /// Listens, if it doesn't yet.
    fn listen(&mut self)
        ensures given { self.new.given ≡ self.old.given }
        ensures faults { self.new.faults ≡ self.old.faults }
    {
        if self.listener.is_none() {
            self.listener = TcpListener::bind(self.net, ("127.0.0.1", self.port)).ok();
        }
    }

    /// The port that it listens at, if it can.
    pub fn port(&mut self) -> Option<u16> {
        self.listen();
        match &self.listener {
            Some(listener) => Some(listener.local_addr().ok()?.port()),
            None => None,
        }
    }
}

/// Doors at so many ports from the first one on, each of which listens once it is asked for a link.
pub fn doors_from<R: Net<Listener = TcpListener, Stream = TcpStream>>(
    net: &R,
    alloc: Global,
    first: u16,
    count: u16,
) -> Result<Vec<TcpDoor<'_, R>>, AllocError>
    requires { first + count ≤ 65535 }
{
    let mut doors = Vec::with_capacity(alloc, count as usize)?;
    for place in 0..count {
        doors.push(TcpDoor::new(net, first + place))?;
    }
    Ok(doors)
}

impl<R: Net<Listener = TcpListener, Stream = TcpStream>> Door for TcpDoor<'_, R> {
    ghost use Rattle.std.specs.Prelude.{[], true, false};
    ghost use Rattle.std.proofs.lemmas.Bool.{false≢true};

    type Link = TcpLink;

    ghost tells = { λ d. record {
      finished = [];
      given = d.given;
      coming = true;
      faults = d.faults;
    } };

    ghost known = { false };

    fn next(&mut self) -> Result<Option<TcpLink>, Failed> {
        self.listen();
        match accepted(&self.listener, self.patience) {
            Some(stream) if self.given < u64::MAX => {
                self.given += 1;
                Ok(Some(TcpLink {
                    stream,
                    ended: false,
                    read_faults: 0,
                    write_faults: 0,
                }))
            }
            _ => {
                self.faults = self.faults.saturating_add(1);
                Err(Failed)
            }
        }
    }

    fn done(&mut self, link: TcpLink) {
        link.close();
    }

    ghost owes = { λ d known. absurd (false≢true known) };
}
