// A wire in memory that is joined to others: what is sent on it lies there until it is handed on.
ghost use Rattle.std.specs.Prelude.{None};

use sp_outside::{DATAGRAM_BYTES, Failed, Side, Wire};
use std::alloc::Global;

/// A datagram on its way.
#[derive(Drop)]
pub(crate) struct Datagram {
    pub(crate) side: Side,
    pub(crate) from: u16,
    pub(crate) to: u16,
    pub(crate) bytes: Vec<u8>,
}

/// A wire on two ports. No call fails, and it tells nothing. What finds no memory when it is sent is lost.
#[derive(Drop)]
pub(crate) struct JoinedWire {
    alloc: Global,
    overlay: u16,
    client: u16,
    pub(crate) coming: Vec<Datagram>,
    pub(crate) sent: Vec<Datagram>,
}

impl JoinedWire {
    pub(crate) fn new(alloc: Global) -> Self {
        JoinedWire {
            alloc,
            overlay: 0,
            client: 0,
            coming: Vec::new(alloc),
            sent: Vec::new(alloc),
        }
    }

    /// Its port on a side.
    pub(crate) fn port(&self, side: Side) -> u16 {
        match side {
            Side::Overlay => self.overlay,
            Side::Client => self.client,
        }
    }
}

impl Wire for JoinedWire {
    ghost told = { λ _. None };

    ghost failed_opens = { λ _. 0 };

    ghost faults = { λ _. 0 };

    fn open(&mut self, overlay: u16, client: u16) -> Result<(), Failed> {
        self.overlay = overlay;
        self.client = client;
        Ok(())
    }

    fn receive(&mut self, side: Side, buf: &mut [u8]) -> Result<Option<(u16, usize)>, Failed> {
        let Some(place) = self
            .coming
            .iter()
            .position(|datagram| datagram.side == side)
        else {
            return Ok(None);
        };
        let datagram = self.coming.remove(place);
        let count = datagram.bytes.len().min(DATAGRAM_BYTES);
        buf[..count].copy_from_slice(&datagram.bytes[..count]);
        Ok(Some((datagram.from, count)))
    }

    fn send(&mut self, side: Side, port: u16, bytes: &[u8]) -> Result<(), Failed> {
        let from = self.port(side);
        if let Ok(bytes) = Vec::from_slice(self.alloc, bytes) {
            let _ = self.sent.push(Datagram {
                side,
                from,
                to: port,
                bytes,
            });
        }
        Ok(())
    }
}
