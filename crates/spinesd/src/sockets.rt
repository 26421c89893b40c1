// The system's sockets of a daemon: UDP on 127.0.0.1 alone. A datagram from another address is none, whatever port it comes from. Beside the socket
// of a port there may be one for a single sender, with a queue of its own in the system: so nobody else's datagrams fill that queue.
ghost use Rattle.std.specs.Prelude.{◌≡◌};

use crate::options::{set_queue, share};
use libc::net as c;
use os::FromRawFd;
use sp_outside::Failed;
use std::io;
use std::io::ErrorKind;
use std::net::{IpAddr, Ipv4Addr, Net, SocketAddr, SocketAddrV4, UdpSocket};
use std::os::fd::AsRawFd;

/// What a socket gives at once.
#[derive(Clone, Copy, Debug)]
pub enum Given {
    /// Nothing is there.
    Nothing,
    /// Something came that isn't heard.
    Unheard,
    /// So many bytes came from this port.
    Datagram { port: u16, count: usize },
}

/// How many bytes of an address the system reads.
const ADDRESS_BYTES: u32 = 16;

/// A socket on this port, whose receives don't wait, and which lets this user open others beside it. There is none for port 0.
pub fn bound<R: Net>(rt: &R, port: u16) -> io::Result<Option<UdpSocket>> {
    if port == 0 {
        return Ok(None);
    }
    let socket = UdpSocket::bind(rt, SocketAddrV4::new(Ipv4Addr::LOCALHOST, port))?;
    socket.set_nonblocking(true)?;
    share(&socket);
    Ok(Some(socket))
}

/// A socket beside the one that is bound to this port, for what comes from one sender.
pub fn beside(port: u16, sender: u16) -> io::Result<UdpSocket> {
    let fd = unsafe { c::socket(c::AF_INET, c::SOCK_DGRAM | c::SOCK_CLOEXEC, 0) };
    if fd < 0 {
        return Err(io::Error::from(ErrorKind::Other));
    }
    let socket = unsafe { UdpSocket::from_raw_fd(fd) };
    socket.set_nonblocking(true)?;
    share(&socket);
    set_queue(&socket);
    if unsafe { c::bind(socket.as_raw_fd(), &address_of(port), ADDRESS_BYTES) } != 0 {
        return Err(io::Error::from(ErrorKind::AddrInUse));
    }
    socket.connect(SocketAddrV4::new(Ipv4Addr::LOCALHOST, sender))?;
    Ok(socket)
}

/// A port of 127.0.0.1 as the system has it: the family, the port and the address.
fn address_of(port: u16) -> [u8; c::_SS_SIZE] {
    let mut bytes = [0u8; c::_SS_SIZE];
    bytes[..2].copy_from_slice(&(c::AF_INET as u16).to_ne_bytes());
    bytes[2..4].copy_from_slice(&port.to_be_bytes());
    bytes[4..8].copy_from_slice(&Ipv4Addr::LOCALHOST.octets());
    bytes
}

/// The port of a sender on 127.0.0.1. Nobody else is heard.
fn port_of(from: SocketAddr) -> Option<u16> {
    if from.ip() == IpAddr::V4(Ipv4Addr::LOCALHOST) {
        Some(from.port())
    } else {
        None
    }
}

/// The next datagram of a socket, up to the length of the buffer.
pub fn received(socket: &UdpSocket, buf: &mut [u8]) -> Result<Given, Failed> {
    match socket.recv_from(buf) {
        Ok((count, from)) => Ok(match port_of(from) {
            Some(port) => Given::Datagram { port, count },
            None => Given::Unheard,
        }),
        Err(error) if error.kind() == ErrorKind::WouldBlock => Ok(Given::Nothing),
        // nobody is at the sender's port
        Err(error) if error.kind() == ErrorKind::ConnectionRefused => Ok(Given::Unheard),
        Err(error) if error.kind() == ErrorKind::Interrupted => Ok(Given::Unheard),
        Err(_) => Err(Failed),
    }
}

/// Sends a whole datagram.
pub fn sent(socket: &UdpSocket, port: u16, bytes: &[u8]) -> Result<(), Failed> {
    match socket.send_to(bytes, SocketAddrV4::new(Ipv4Addr::LOCALHOST, port)) {
        Ok(count) if count == bytes.len() => Ok(()),
        _ => Err(Failed),
    }
}
