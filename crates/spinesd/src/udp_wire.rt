// Datagrams on this machine: UDP on 127.0.0.1 for both sides of a daemon. The wire tells nothing of them.
ghost use Rattle.std.specs.Prelude.{None};

use crate::ears::Ears;
use sp_outside::{Failed, Side, Wire};
use std::alloc::Global;
use std::net::Net;
use std::rt::Clock;

/// The system's sockets of the two sides. A receive of the overlay side rests, waits or does neither, as its pace wants it; one of the client side
/// doesn't wait, unless it is the only side that is open. What comes is heard in turn, and a frame isn't sent where its pace wants that: it is lost,
/// as a network loses some, and what it carried goes again with the next.
#[derive(Drop)]
pub struct UdpWire<'r, R: Net + Clock> {
    rt: &'r R,
    alloc: Global,
    ears: Option<Ears>,
    failed_opens: u64,
    faults: u64,
}

impl<'r, R: Net + Clock> UdpWire<'r, R> {
    /// No side is open yet.
    pub fn new(rt: &'r R, alloc: Global) -> Self {
        UdpWire {
            rt,
            alloc,
            ears: None,
            failed_opens: 0,
            faults: 0,
        }
    }
}

impl<R: Net + Clock> Wire for UdpWire<'_, R> {
    ghost told = { λ _. None };

    ghost failed_opens = { λ w. w.failed_opens };

    ghost faults = { λ w. w.faults };

    fn open(&mut self, overlay: u16, client: u16) -> Result<(), Failed> {
        match Ears::new(self.rt, self.alloc, overlay, client) {
            Ok(ears) => {
                self.ears = Some(ears);
                Ok(())
            }
            Err(_) => {
                self.failed_opens = self.failed_opens.saturating_add(1);
                Err(Failed)
            }
        }
    }

    fn receive(&mut self, side: Side, buf: &mut [u8]) -> Result<Option<(u16, usize)>, Failed> {
        let Some(ears) = &mut self.ears else {
            return Ok(None);
        };
        let got = ears.hear(self.rt, side, buf);
        if got.is_err() {
            self.faults = self.faults.saturating_add(1);
        }
        got
    }

    fn send(&mut self, side: Side, port: u16, bytes: &[u8]) -> Result<(), Failed> {
        let done = match &mut self.ears {
            Some(ears) => ears.send(side, port, bytes),
            None => Err(Failed),
        };
        if done.is_err() {
            self.faults = self.faults.saturating_add(1);
        }
        done
    }
}
