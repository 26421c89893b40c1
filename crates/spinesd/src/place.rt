// The datagrams that wait at one place until they are heard: the newest few, or the first few, of so many bytes together.

use sp_outside::Failed;
use std::alloc::Global;
use std::collections::VecDeque;

/// The datagrams of a place have at most so many bytes together, or are one.
const PLACE_BYTES: usize = 131_072;

/// A datagram that came from this port.
#[derive(Drop)]
pub struct Waiting {
    pub port: u16,
    pub bytes: Vec<u8>,
    /// Whether a daemon that rests is woken by it.
    pub is_news: bool,
}

/// At most so many datagrams, in the order in which they came.
#[derive(Drop)]
pub struct Place {
    alloc: Global,
    most: usize,
    waiting: VecDeque<Waiting>,
}

impl Place {
    pub fn new(alloc: Global, most: usize) -> Self {
        Place {
            alloc,
            most,
            waiting: VecDeque::new(alloc),
        }
    }

    pub fn is_empty(&self) -> bool {
        self.waiting.is_empty()
    }

    /// Whether one that waits is news.
    pub fn has_news(&self) -> bool {
        self.waiting.iter().any(|datagram| datagram.is_news)
    }

    /// One datagram more. The oldest go where there is no room for it. It fails for want of memory alone.
    pub fn put(&mut self, port: u16, bytes: &[u8], is_news: bool) -> Result<(), Failed> {
        for _ in 0..self.most {
            if self.is_full(bytes.len()) {
                self.waiting.pop_front();
            }
        }
        let Ok(bytes) = Vec::from_slice(self.alloc, bytes) else {
            return Err(Failed);
        };
        let datagram = Waiting {
            port,
            bytes,
            is_news,
        };
        match self.waiting.push_back(datagram) {
            Ok(()) => Ok(()),
            Err(_) => Err(Failed),
        }
    }

    /// The same where there is room for it. Else it is lost.
    pub fn put_if_room(&mut self, port: u16, bytes: &[u8]) -> Result<(), Failed> {
        if self.is_full(bytes.len()) {
            return Ok(());
        }
        self.put(port, bytes, false)
    }

    /// The oldest, which waits no more.
    pub fn take(&mut self) -> Option<Waiting> {
        self.waiting.pop_front()
    }

    /// Whether one more of so many bytes has no room.
    fn is_full(&self, more: usize) -> bool {
        let bytes = self.waiting.iter().fold(
            more,
            |sum, datagram| sum.saturating_add(datagram.bytes.len()),
        );
        !self.waiting.is_empty() && (self.most <= self.waiting.len() || PLACE_BYTES < bytes)
    }
}
