// What a daemon hears: what came to its two ports is taken at once, a bounded number of each sender, and heard in turn. A daemon that has nothing to do
// waits for both.
ghost use Rattle.std.specs.Prelude.{◌≡◌, ◌≤◌, IfOk, IfSome, length};
ghost use Rattle.sp_outside.specs.declared.wire.TheConstants.{DATAGRAM_BYTES};

use crate::hearing::Hearing;
use crate::pace::{Pace, Pause};
use crate::place::Waiting;
use crate::sockets::{Given, bound};
use crate::waiter::Waiter;
use sp_outside::{DATAGRAM_BYTES, Failed, Side};
use std::alloc::Global;
use std::io;
use std::net::{Net, UdpSocket};
use std::rt::Clock;
use std::time::Duration;

/// How long a daemon rests, at most.
const REST_MS: u64 = 100;

/// How long it waits where each neighbour has a frame to answer.
const HOLD_MS: u64 = 40;

/// How long one that asks waits for an answer, at most.
const ASK_MS: u64 = 5;

/// A client without a session is heard by a daemon that rests after so long: so what is no request wakes it seldom.
const STRANGER_MS: u64 = 10;

/// So much is taken of a side at once.
const MOST_TAKEN: usize = 4_096;

/// The sockets of the client side are waited for under their senders' ports and this.
const CLIENTS: usize = 65_536;

/// So often something that isn't heard wakes a daemon before it goes on.
const MOST_WAKES: usize = 10_000;

/// So many strays of the overlay side wait, and so many datagrams of clients without a session.
const STRAYS: usize = 1;

const STRANGERS: usize = 8;

/// A longer datagram is no request of a client. Of it one byte more is taken than a request has.
const REQUEST_BYTES: usize = 4_096;

/// Both ports, and what waits at each.
#[derive(Drop)]
pub struct Ears {
    waiter: Waiter,
    neighbours: Hearing,
    clients: Hearing,
    /// Whether a datagram longer than any request may be heard in this cycle.
    hears_long: bool,
    pace: Pace,
}

impl Ears {
    /// The two ports are opened, and both are waited for. Port 0 opens nothing on its side. Nothing came yet.
    pub fn new<R: Net>(rt: &R, alloc: Global, overlay: u16, client: u16) -> io::Result<Self> {
        let waiter = Waiter::new(rt, alloc)?;
        let neighbours = bound(rt, overlay)?;
        let clients = bound(rt, client)?;
        let neighbours = Hearing::new(alloc, &waiter, neighbours, overlay, 0, STRAYS)?;
        let clients = Hearing::new(alloc, &waiter, clients, client, CLIENTS, STRANGERS)?;
        Ok(Ears {
            waiter,
            neighbours,
            clients,
            hears_long: true,
            pace: Pace::new(),
        })
    }

    /// The next datagram of this side in turn.
    pub fn hear<R: Clock>(
        &mut self,
        rt: &R,
        side: Side,
        buf: &mut [u8],
    ) -> Result<Option<(u16, usize)>, Failed>
        ensures { IfOk result (λ got. IfSome got (λ datagram. datagram.1 ≤ DATAGRAM_BYTES)) }
    {
        let next = match side {
            Side::Overlay => self.next_neighbour(rt, buf)?,
            Side::Client => self.next_client(rt, buf)?,
        };
        match next {
            Some(waiting) => Ok(given(&waiting, buf)),
            None => Ok(None),
        }
    }

    /// Waits as the pace wants it, and takes the datagram of the next neighbour in turn.
    fn next_neighbour<R: Clock>(
        &mut self,
        rt: &R,
        buf: &mut [u8],
    ) -> Result<Option<Waiting>, Failed> {
        if !self.neighbours.is_open() {
            return Ok(None);
        }
        if self.pace.begins() {
            self.neighbours.begin_cycle(&self.waiter);
            self.hears_long = true;
        }
        self.clients.begin_cycle(&self.waiter);
        let pause = self.pace.pause();
        self.wait(rt, pause, buf)?;
        let next = self.neighbours.take();
        match &next {
            Some(waiting) => {
                self.pace.heard(waiting.port, waiting.is_news);
            }
            None => self.pace.unheard(),
        }
        Ok(next)
    }

    /// Takes the datagram of the next client in turn. One without a session asks for nothing that goes to a neighbour. Who has no overlay side asks, and
    /// waits for the answer.
    fn next_client<R: Clock>(&mut self, rt: &R, buf: &mut [u8]) -> Result<Option<Waiting>, Failed> {
        if !self.neighbours.is_open() {
            self.clients.begin_cycle(&self.waiter);
            self.wait(rt, Pause::Rest, buf)?;
        }
        let Some(waiting) = self.clients.take() else {
            return Ok(None);
        };
        if self.clients.knows(waiting.port) {
            self.pace.asked();
        }
        Ok(Some(waiting))
    }

    /// Sends a datagram, if the pace has it go. Its port is known from then on, at the client side as long as it has a session.
    pub fn send(&mut self, side: Side, port: u16, bytes: &[u8]) -> Result<(), Failed> {
        if side == Side::Client {
            self.know_client(port, bytes);
            return self.clients.send(port, bytes);
        }
        self.neighbours.know(&self.waiter, port);
        if self.pace.goes_to(port, bytes) {
            self.neighbours.send(port, bytes)
        } else {
            Ok(())
        }
    }

    fn know_client(&mut self, port: u16, reply: &[u8]) {
        if has_session(reply) {
            self.clients.know(&self.waiter, port);
        } else if self.clients.knows(port) {
            self.clients.forget(port);
        }
    }

    /// Takes what came, and waits until there is a reason to go on.
    fn wait<R: Clock>(&mut self, rt: &R, pause: Pause, buf: &mut [u8]) -> Result<(), Failed> {
        let begin = rt.monotonic();
        self.neighbours.begin_wait(&self.waiter);
        self.clients.begin_wait(&self.waiter);
        for wakes in 0..MOST_WAKES {
            self.take(Side::Overlay, buf)?;
            self.take(Side::Client, buf)?;
            let passed = match (&begin, rt.monotonic()) {
                (Ok(begin), Ok(now)) => passed_ms(*begin, now),
                _ => REST_MS,
            };
            let left = self.left_ms(pause, passed);
            if left == 0 && 0 < wakes {
                return Ok(());
            }
            self.look(left)?;
        }
        Ok(())
    }

    /// Waits so many milliseconds at most, and notes where something came.
    fn look(&mut self, most_ms: u64) -> Result<(), Failed> {
        if self.waiter.wait(most_ms).is_err() {
            return Err(Failed);
        }
        for event in self.waiter.events() {
            let name = event.token().0;
            if name < CLIENTS {
                self.neighbours.wake(name);
            } else {
                self.clients.wake(name.saturating_sub(CLIENTS));
            }
        }
        Ok(())
    }

    /// How long to wait yet after so long, in milliseconds. For 0 there is a reason to go on.
    fn left_ms(&self, pause: Pause, passed: u64) -> u64 {
        let asks = !self.neighbours.is_open();
        match pause {
            Pause::No => 0,
            Pause::Hold { for_clients }
                if self.neighbours.has_known() || (for_clients && self.clients.has_known()) => 0,
            Pause::Hold { .. } => HOLD_MS.saturating_sub(passed),
            Pause::Rest if self.neighbours.has_news() || self.clients.has_known() => 0,
            Pause::Rest if asks && self.clients.has_others() => 0,
            Pause::Rest if asks => ASK_MS.saturating_sub(passed),
            Pause::Rest if self.clients.has_others() => STRANGER_MS.saturating_sub(passed),
            Pause::Rest => REST_MS.saturating_sub(passed),
        }
    }

    /// Takes what came to a side.
    fn take(&mut self, side: Side, buf: &mut [u8]) -> Result<(), Failed> {
        for _ in 0..MOST_TAKEN {
            match self.receive(side, buf)? {
                Given::Nothing => return Ok(()),
                Given::Unheard => {}
                Given::Datagram { port, count } => {
                    if let Some(bytes) = buf.get(..count) {
                        self.put(side, port, bytes)?;
                    }
                }
            }
        }
        Ok(())
    }

    fn receive(&mut self, side: Side, buf: &mut [u8]) -> Result<Given, Failed> {
        match side {
            Side::Overlay => self.neighbours.receive(&self.waiter, buf),
            Side::Client => {
                let most = buf.len().min(REQUEST_BYTES + 1);
                self.clients.receive(&self.waiter, &mut buf[..most])
            }
        }
    }

    fn put(&mut self, side: Side, port: u16, bytes: &[u8]) -> Result<(), Failed> {
        match side {
            Side::Overlay => self.put_neighbour(port, bytes),
            Side::Client => self.put_client(port, bytes),
        }
    }

    fn put_neighbour(&mut self, port: u16, bytes: &[u8]) -> Result<(), Failed> {
        if self.neighbours.put(port, bytes)? {
            return Ok(());
        }
        self.neighbours.put_first(port, bytes)
    }

    /// Of datagrams longer than any request one is heard in a cycle of the neighbours, and all others are lost.
    fn put_client(&mut self, port: u16, bytes: &[u8]) -> Result<(), Failed> {
        let is_long = REQUEST_BYTES < bytes.len();
        if is_long && !self.hears_long {
            return Ok(());
        }
        if is_long {
            self.hears_long = false;
        } else if self.clients.put(port, bytes)? {
            return Ok(());
        }
        self.clients.put_newest(port, bytes)
    }
}

/// Milliseconds from one reading of the clock to another, rounded up.
fn passed_ms(begin: Duration, now: Duration) -> u64 {
    match now.checked_sub(begin) {
        Some(passed) => u64::try_from(passed.as_millis()).unwrap_or(u64::MAX),
        None => 0,
    }
}

/// Whether the reply to a request says that its port has a session.
fn has_session(reply: &[u8]) -> bool {
    const WITHOUT: [&[u8]; 5] = [
        b" badrequest",
        b" nosession",
        b" sessionsfull",
        b" badnumber 0",
        b" closed",
    ];
    !WITHOUT.iter().any(|word| reply.ends_with(word))
}

/// The datagram at the front of the buffer, with its port and its length.
fn given(waiting: &Waiting, buf: &mut [u8]) -> Option<(u16, usize)>
    ensures { IfSome result (λ datagram. datagram.1 ≤ DATAGRAM_BYTES) }
{
    let bytes = waiting.bytes.as_slice();
    let count = bytes.len().min(buf.len()).min(DATAGRAM_BYTES);
    buf[..count].copy_from_slice(&bytes[..count]);
    Some((waiting.port, count))
}
