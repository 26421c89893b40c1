// Who is heard next at a port of a daemon: each sender that is known has a socket and a place, all others have one together, and the places take turns.
// So who sends more than others takes its own turn and no other, and one who is not known seldom takes the turn of one who is.
//
//     port of a neighbour    port of another one    all other ports             the next of them that has something is heard,
//     3 wait                 1 waits                1 waits, 9,000 were lost    and the one after it then

use crate::inlet::Inlet;
use crate::news::News;
use crate::place::{Place, Waiting};
use crate::sockets::{Given, beside};
use crate::waiter::Waiter;
use sp_base::MAX_NODES_2;
use sp_outside::Failed;
use std::alloc::Global;
use std::io;
use std::net::UdpSocket;

/// So many senders have a place of their own: more than any topology has neighbours, and than a daemon has sessions of clients.
const MOST_PORTS: usize = MAX_NODES_2 as usize;

/// So many datagrams of a sender wait.
const OWN: usize = 4;

/// So many of a sender's are taken in one wait, which is all that wait unless they are short, and of all others together in a cycle.
const TAKEN: usize = 16;

const TAKEN_OF_OTHERS: usize = 16;

/// While something of a sender that is known waits, one of all others is heard in so many cycles.
const SELDOM: u8 = 2;

/// A sender with its socket, its place, and the frames that it sent last. Without a socket of its own it comes in at the one of all others.
#[derive(Drop)]
struct Known {
    port: u16,
    inlet: Option<Inlet>,
    place: Place,
    news: News,
}

/// What waits at a port until it is heard.
#[derive(Drop)]
pub struct Hearing {
    alloc: Global,
    port: u16,
    /// The socket of all that have none of their own. There is none where nothing is heard.
    inlet: Option<Inlet>,
    /// A socket is waited for under this number and the port of its sender, which is 0 for all others.
    name: usize,
    known: Vec<Known>,
    /// The place of all senders that aren't known.
    others: Place,
    /// The place whose turn it is. The last one is that of the others.
    next: usize,
    /// Whether the others may be heard before the next cycle.
    hears_others: bool,
    /// How many cycles began since one of the others was heard.
    cycles: u8,
}

impl Hearing {
    /// No sender is known. So many datagrams of all others together wait.
    pub fn new(
        alloc: Global,
        waiter: &Waiter,
        socket: Option<UdpSocket>,
        port: u16,
        name: usize,
        others: usize,
    ) -> io::Result<Self> {
        let inlet = match socket {
            Some(socket) => Some(Inlet::new(waiter, socket, name, TAKEN_OF_OTHERS)?),
            None => None,
        };
        Ok(Hearing {
            alloc,
            port,
            inlet,
            name,
            known: Vec::new(alloc),
            others: Place::new(alloc, others),
            next: 0,
            hears_others: true,
            cycles: SELDOM,
        })
    }

    /// Whether there is a socket at all.
    pub fn is_open(&self) -> bool {
        self.inlet.is_some()
    }

    /// A cycle begins, in which one of the others may be heard.
    pub fn begin_cycle(&mut self, waiter: &Waiter) {
        self.hears_others = true;
        self.cycles = self.cycles.saturating_add(1);
        if let Some(inlet) = &mut self.inlet {
            inlet.begin(waiter);
        }
    }

    /// A wait begins, in which so many of each sender are taken.
    pub fn begin_wait(&mut self, waiter: &Waiter) {
        for known in self.known.iter_mut() {
            if let Some(inlet) = &mut known.inlet {
                inlet.begin(waiter);
            }
        }
    }

    /// Something came at the socket of this sender, or of all others.
    pub fn wake(&mut self, sender: usize) {
        if sender == 0 {
            if let Some(inlet) = &mut self.inlet {
                inlet.wake();
            }
        }
        for known in self.known.iter_mut() {
            if usize::from(known.port) == sender {
                if let Some(inlet) = &mut known.inlet {
                    inlet.wake();
                }
            }
        }
    }

    /// The next datagram that came to the port. The others' sockets are left alone where they were heard in this cycle.
    pub fn receive(&mut self, waiter: &Waiter, buf: &mut [u8]) -> Result<Given, Failed> {
        for known in self.known.iter_mut() {
            if let Some(inlet) = &mut known.inlet {
                match inlet.next(waiter, buf)? {
                    Given::Nothing => {}
                    given => return Ok(given),
                }
            }
        }
        let Some(inlet) = &mut self.inlet else {
            return Ok(Given::Nothing);
        };
        if self.hears_others {
            return inlet.next(waiter, buf);
        }
        inlet.pass_over(waiter);
        Ok(Given::Nothing)
    }

    /// Sends a datagram from the port.
    pub fn send(&self, to: u16, bytes: &[u8]) -> Result<(), Failed> {
        match &self.inlet {
            Some(inlet) => inlet.send(to, bytes),
            None => Err(Failed),
        }
    }

    /// Whether this sender has a place.
    pub fn knows(&self, port: u16) -> bool {
        self.known.iter().any(|known| known.port == port)
    }

    /// The sender has a place from now on, if there is one left and memory for it.
    pub fn know(&mut self, waiter: &Waiter, port: u16) {
        if self.knows(port) || MOST_PORTS <= self.known.len() {
            return;
        }
        let known = Known {
            port,
            inlet: self.opened(waiter, port).ok(),
            place: Place::new(self.alloc, OWN),
            news: News::new(),
        };
        if self.known.push(known).is_err() {
            // without memory it stays one of the others
        }
    }

    /// The socket of a sender, which is waited for.
    fn opened(&self, waiter: &Waiter, sender: u16) -> io::Result<Inlet> {
        let socket = beside(self.port, sender)?;
        Inlet::new(
            waiter,
            socket,
            self.name.saturating_add(usize::from(sender)),
            TAKEN,
        )
    }

    /// The sender has no place any more, and nothing of it waits.
    pub fn forget(&mut self, port: u16) {
        self.known.retain(|known| known.port != port);
        self.next = 0;
    }

    /// A datagram came. Of a sender that is known the newest few wait.
    pub fn put(&mut self, port: u16, bytes: &[u8]) -> Result<bool, Failed> {
        for known in self.known.iter_mut() {
            if known.port == port {
                let is_news = known.news.hears(bytes);
                known.place.put(port, bytes, is_news)?;
                return Ok(true);
            }
        }
        Ok(false)
    }

    /// A datagram of another one came. The newest few wait.
    pub fn put_newest(&mut self, port: u16, bytes: &[u8]) -> Result<(), Failed> {
        self.others.put(port, bytes, false)
    }

    /// The same, of which the first few wait.
    pub fn put_first(&mut self, port: u16, bytes: &[u8]) -> Result<(), Failed> {
        self.others.put_if_room(port, bytes)
    }

    /// Whether something of a sender that is known waits.
    pub fn has_known(&self) -> bool {
        self.known.iter().any(|known| !known.place.is_empty())
    }

    /// Whether news of a sender that is known waits.
    pub fn has_news(&self) -> bool {
        self.known.iter().any(|known| known.place.has_news())
    }

    /// Whether something of the others waits, and may be heard.
    pub fn has_others(&self) -> bool {
        self.hears_others && !self.others.is_empty()
    }

    /// The next datagram in turn.
    pub fn take(&mut self) -> Option<Waiting> {
        for _ in 0..=self.known.len() {
            let place = self.next;
            self.next = if place < self.known.len() {
                place.saturating_add(1)
            } else {
                0
            };
            if let Some(waiting) = self.take_at(place) {
                return Some(waiting);
            }
        }
        None
    }

    fn take_at(&mut self, place: usize) -> Option<Waiting> {
        if let Some(known) = self.known.get_mut(place) {
            return known.place.take();
        }
        if !self.hears_others || (self.cycles < SELDOM && self.has_known()) {
            return None;
        }
        let waiting = self.others.take();
        self.hears_others = waiting.is_none();
        if waiting.is_some() {
            self.cycles = 0;
        }
        waiting
    }
}
