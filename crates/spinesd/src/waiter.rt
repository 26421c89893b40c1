// Waits until something comes at one of a daemon's sockets, or a time is up.

use mio::unix::SourceFd;
use mio::{Events, Interest, Poll, Token};
use std::alloc::Global;
use std::io;
use std::io::ErrorKind;
use std::net::{Net, UdpSocket};
use std::os::fd::AsRawFd;
use std::time::Duration;

/// Of so many sockets is told at once that something came. Of the others it is told by the next wait.
const TOLD: usize = 64;

/// The sockets that are waited for. Each thing that comes ends one wait.
#[derive(Drop)]
pub struct Waiter {
    poll: Poll,
    events: Events<Global>,
}

impl Waiter {
    /// Of no socket yet.
    pub fn new<R: Net>(rt: &R, alloc: Global) -> io::Result<Self> {
        let events = Events::with_capacity(alloc, TOLD).map_err(|_| io::Error::from(
            ErrorKind::OutOfMemory,
        ))?;
        Ok(Waiter {
            poll: Poll::new(rt)?,
            events,
        })
    }

    /// A socket is waited for from now on, under this name.
    pub fn add(&self, socket: &UdpSocket, name: usize) -> io::Result<()> {
        let fd = socket.as_raw_fd();
        self.poll
            .registry()
            .register(&mut SourceFd(&fd), Token(name), Interest::READABLE)
    }

    /// A socket isn't waited for any more.
    pub fn remove(&self, socket: &UdpSocket) -> io::Result<()> {
        let fd = socket.as_raw_fd();
        self.poll.registry().deregister(&mut SourceFd(&fd))
    }

    /// Waits so many milliseconds at most.
    pub fn wait(&mut self, most_ms: u64) -> io::Result<()> {
        self.poll
            .poll(&mut self.events, Some(Duration::from_millis(most_ms)))
    }

    /// Where something came in the last wait.
    pub fn events(&self) -> &Events<Global> {
        &self.events
    }
}
