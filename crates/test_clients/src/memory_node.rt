// Node 1 of three in a line 1-2-3, with weights 10, buffers of 2 and nothing that passes: what it answers to its clients.
ghost use Rattle.std.specs.Prelude.{⊤};

use sp_base::{Bytes, MAX_PAYLOAD_BYTES, MAX_SEQ, NodeId};
use sp_client::{BadEnd, Local, SendRefused};
use sp_msg::{Body, Kept, Mask, Prio};
use sp_rules::{Entry, KSend, PrioSend};
use std::alloc::Global;

/// A node in memory that counts the calls of its clients.
#[derive(Debug, Drop)]
pub struct MemoryNode {
    alloc: Global,
    pub calls: u64,
    pub now: u64,
    /// How many reliable messages went to nodes 2 and 3.
    sent: [u64; 2],
    /// How many on paths went to them, and on how many paths the last one went.
    on_paths: [(u64, u8); 2],
    urgent: u64,
    weights: u64,
    /// What the next take from node 3 gives.
    pub mail: Option<Bytes>,
    /// What the next take of a priority message gives.
    pub urgent_mail: Option<Bytes>,
}

impl MemoryNode {
    pub fn new(alloc: Global) -> MemoryNode {
        MemoryNode {
            alloc,
            calls: 0,
            now: 0,
            sent: [0, 0],
            on_paths: [(0, 0), (0, 0)],
            urgent: 0,
            weights: 0,
            mail: None,
            urgent_mail: None,
        }
    }

    fn count(&mut self) {
        self.calls = self.calls.saturating_add(1);
    }
}

impl Local for MemoryNode {
    ghost steps = { λ _ _ _ _. ⊤ };

    fn send_rel(&mut self, alloc: Global, dst: NodeId, payload: &[u8]) -> Result<u64, SendRefused> {
        if dst.0 != 2 && dst.0 != 3 {
            self.count();
            return Err(SendRefused::BadEnd);
        }
        let place = dst.0 as usize - 2;
        if self.sent[place] >= 2 {
            self.count();
            return Err(SendRefused::Full { base: 0, have: 2 });
        }
        if Bytes::copy(alloc, payload).is_err() {
            return Err(SendRefused::Memory);
        }
        self.count();
        let seq = self.sent[place].saturating_add(1);
        self.sent[place] = seq;
        Ok(seq)
    }

    fn send_prio(&mut self, alloc: Global, message: &PrioSend<'_>) -> Result<u64, SendRefused> {
        let PrioSend {
            dst,
            expiry,
            paths,
            payload,
            ..
        } = *message;
        if Bytes::copy(alloc, payload).is_err() {
            return Err(SendRefused::Memory);
        }
        self.count();
        if dst.0 != 2 && dst.0 != 3 {
            return Err(SendRefused::BadEnd);
        }
        if expiry < self.now {
            return Err(SendRefused::Expired { now: self.now });
        }
        if paths > 1 {
            return Err(SendRefused::NoPaths { found: 1 });
        }
        self.urgent = self.urgent.saturating_add(1);
        Ok(self.urgent)
    }

    fn send_krel(&mut self, alloc: Global, message: &KSend<'_>) -> Result<u64, SendRefused> {
        let KSend {
            dst,
            paths,
            payload,
        } = *message;
        if Bytes::copy(alloc, payload).is_err() {
            return Err(SendRefused::Memory);
        }
        self.count();
        if dst.0 != 2 && dst.0 != 3 {
            return Err(SendRefused::BadEnd);
        }
        let place = dst.0 as usize - 2;
        let (seq, last) = self.on_paths[place];
        if seq >= 2 {
            return Err(SendRefused::Full { base: 0, have: 2 });
        }
        if seq > 0 && last != paths {
            return Err(SendRefused::Busy { paths: last });
        }
        if paths > 1 {
            return Err(SendRefused::NoPaths { found: 1 });
        }
        self.on_paths[place] = (seq + 1, paths);
        Ok(seq + 1)
    }

    fn take_krel(&mut self, src: NodeId) -> Result<Option<Bytes>, BadEnd> {
        self.count();
        if src.0 != 2 && src.0 != 3 {
            return Err(BadEnd);
        }
        Ok(None)
    }

    fn take_rel(&mut self, src: NodeId) -> Result<Option<Bytes>, BadEnd> {
        self.count();
        if src.0 != 2 && src.0 != 3 {
            return Err(BadEnd);
        }
        match self.mail.take() {
            Some(payload) if payload.as_slice().len() <= MAX_PAYLOAD_BYTES => Ok(Some(payload)),
            _ => Ok(None),
        }
    }

    fn take_prio(&mut self) -> Option<Entry> {
        self.count();
        let payload = self.urgent_mail.take()?;
        if payload.as_slice().len() > MAX_PAYLOAD_BYTES {
            return None;
        }
        let body = Body::Prio(Prio {
            src: NodeId(3),
            dst: NodeId(1),
            sboot: 0,
            seq: MAX_SEQ,
            prio: 5,
            expiry: 9,
            mask: Mask::none(),
            payload,
        });
        let signature = Bytes::from_vec(Vec::new(self.alloc));
        Some(Entry {
            id: 1,
            kept: Kept { body, signature },
        })
    }

    fn set_weight(
        &mut self,
        _alloc: Global,
        peer: NodeId,
        weight: u32,
    ) -> Result<u64, SendRefused> {
        self.count();
        if peer.0 != 2 {
            return Err(SendRefused::BadEnd);
        }
        if weight < 10 {
            return Err(SendRefused::Low { min: 10 });
        }
        self.weights = self.weights.saturating_add(1);
        Ok(self.weights)
    }
}
