//! Peers over the loopback device.

ghost use Rattle.std.specs.Prelude.{◌≤◌, ◌+◌};

use crate::clerk::Clerk;
use crate::net::ShownNet;
use crate::script::{print_door_end, shown};
use cf_http::{Door, serve_door};
use cf_http_links::{Coming, TcpDoor, doors_from};
use std::io::{self, Read, Write};
use std::net::{Shutdown, TcpStream};
use std::time::Duration;

/// A peer that sends these bytes and then its end. One without bytes says nothing.
fn peer(rt: &HostRuntime, port: u16, bytes: &[u8]) -> io::Result<TcpStream> {
    let mut stream = TcpStream::connect(rt, ("127.0.0.1", port))?;
    send(&mut stream, bytes)?;
    Ok(stream)
}

fn send(stream: &mut TcpStream, bytes: &[u8]) -> io::Result<()> {
    if bytes.is_empty() {
        return Ok(());
    }
    stream.write_all(bytes)?;
    stream.shutdown(Shutdown::Write)
}

/// The peers of the texts, in their order.
fn peers(rt: &HostRuntime, port: u16, texts: &[Coming]) -> io::Result<Vec<TcpStream>> {
    let mut peers = Vec::new(rt.alloc());
    for text in texts {
        peers.push(peer(rt, port, text.bytes.as_slice())?)?;
    }
    Ok(peers)
}

/// Prints what each peer got.
fn print_got(rt: &HostRuntime, peers: &mut [TcpStream]) -> io::Result<()> {
    for peer in peers {
        let mut got = Vec::new(rt.alloc());
        peer.read_to_end(&mut got)?;
        let text = shown(rt.alloc(), got.as_slice())?;
        println!(rt; "{text}= a peer")?;
    }
    Ok(())
}

/// Serves so many links of a door that listens, and prints what each peer got.
fn see_served<D: Door>(
    rt: &HostRuntime,
    door: &mut D,
    links: u32,
    clerk: &mut Clerk,
    peers: &mut [TcpStream],
) -> io::Result<()> {
    let end = serve_door(rt.alloc(), door, links, clerk);
    print_got(rt, peers)?;
    print_door_end(rt, end, clerk.asked)
}

fn see_at(
    rt: &HostRuntime,
    door: &mut TcpDoor<'_, ShownNet<'_>>,
    links: u32,
    clerk: &mut Clerk,
    texts: &[Coming],
) -> io::Result<()> {
    let port = door.port().unwrap_or(0);
    let mut peers = peers(rt, port, texts)?;
    see_served(rt, door, links, clerk, peers.as_mut_slice())
}

/// Serves so many links of a door that waits a tenth of a second for each read and write, and at
/// which a peer for each of these texts stands.
pub fn see_peers(
    rt: &HostRuntime,
    links: u32,
    clerk: &mut Clerk,
    texts: &[Coming],
) -> io::Result<()> {
    let net = ShownNet { rt, opens: true };
    let mut door = TcpDoor::patient(&net, 0, Duration::from_millis(100));
    see_at(rt, &mut door, links, clerk, texts)
}

/// Has the doors of so many ports from the first one on be served, while the network opens none:
/// what each asks for is printed.
pub fn see_ports(rt: &HostRuntime, clerk: &mut Clerk, first: u16, count: u16) -> io::Result<()>
    requires { first + count ≤ 65535 }
{
    let net = ShownNet { rt, opens: false };
    let mut doors = doors_from(&net, rt.alloc(), first, count)?;
    for door in &mut doors {
        let end = serve_door(rt.alloc(), door, 1, clerk);
        print_door_end(rt, end, clerk.asked)?;
    }
    Ok(())
}
