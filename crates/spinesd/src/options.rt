// What is asked of the system for a socket: how much it holds before it drops what comes, and that this user may open others on its port.
ghost use Rattle.std.specs.Prelude.{◌≡◌};

use libc::net as c;
use std::net::UdpSocket;
use std::os::fd::AsRawFd;

/// So many bytes of datagrams wait in the system, which counts twice as many, since it counts what it takes for each: some ten of the longest frames. A
/// neighbour has one or two on their way, and what waits longer than those is old.
const QUEUE_BYTES: i32 = 131_072;

/// How many bytes of an option's value are read.
const VALUE_BYTES: u32 = 4;

/// Asks for a queue of this length. Where the system refuses, the one that is there stays.
pub fn set_queue(socket: &UdpSocket) {
    unsafe {
        c::setsockopt(
            socket.as_raw_fd(),
            c::SOL_SOCKET,
            c::SO_RCVBUF,
            &value_of(QUEUE_BYTES),
            VALUE_BYTES,
        );
    }
}

/// Lets sockets of this user, that ask for it too, be opened on its port. Where the system refuses, none is opened.
pub fn share(socket: &UdpSocket) {
    unsafe {
        c::setsockopt(
            socket.as_raw_fd(),
            c::SOL_SOCKET,
            c::SO_REUSEPORT,
            &value_of(1),
            VALUE_BYTES,
        );
    }
}

fn value_of(number: i32) -> [u8; 16] {
    let mut value = [0u8; 16];
    value[..4].copy_from_slice(&number.to_ne_bytes());
    value
}
