// A socket from which datagrams are taken: after the system told that something came there, and so many at a time. What isn't taken then waits in the
// system, which drops what comes where its queue is full, and ends no wait: so who floods a socket costs a daemon no more than it takes of it.

use crate::sockets::{Given, received, sent};
use crate::waiter::Waiter;
use sp_outside::Failed;
use std::io;
use std::net::UdpSocket;

/// One socket.
#[derive(Drop)]
pub struct Inlet {
    socket: UdpSocket,
    /// It is waited for under this name.
    name: usize,
    is_waited_for: bool,
    /// Whether something may be there.
    may_give: bool,
    most: usize,
    /// How many may be taken yet.
    left: usize,
}

impl Inlet {
    /// Nothing came yet. The socket is waited for under this name. At most so many datagrams are taken at a time.
    pub fn new(waiter: &Waiter, socket: UdpSocket, name: usize, most: usize) -> io::Result<Self> {
        waiter.add(&socket, name)?;
        Ok(Inlet {
            socket,
            name,
            is_waited_for: true,
            may_give: false,
            most,
            left: most,
        })
    }

    /// Another time: as many may be taken again, and what comes ends a wait.
    pub fn begin(&mut self, waiter: &Waiter) {
        self.left = self.most;
        if !self.is_waited_for {
            self.is_waited_for = waiter.add(&self.socket, self.name).is_ok();
            self.may_give = true;
        }
    }

    /// Something came.
    pub fn wake(&mut self) {
        self.may_give = true;
    }

    /// What comes isn't taken this time, and ends no wait.
    pub fn pass_over(&mut self, waiter: &Waiter) {
        if self.may_give && self.is_waited_for {
            self.is_waited_for = waiter.remove(&self.socket).is_err();
        }
    }

    /// The next datagram. Nothing comes once so many were taken.
    pub fn next(&mut self, waiter: &Waiter, buf: &mut [u8]) -> Result<Given, Failed> {
        if self.left == 0 {
            self.pass_over(waiter);
            return Ok(Given::Nothing);
        }
        if !self.may_give {
            return Ok(Given::Nothing);
        }
        self.left = self.left.saturating_sub(1);
        let given = received(&self.socket, buf)?;
        if let Given::Nothing = given {
            self.may_give = false;
        }
        Ok(given)
    }

    /// Sends a whole datagram.
    pub fn send(&self, port: u16, bytes: &[u8]) -> Result<(), Failed> {
        sent(&self.socket, port, bytes)
    }
}
