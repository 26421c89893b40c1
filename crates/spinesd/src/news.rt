// Which frames are news: those that carry a signed message, or tell of a start, that the last frames of the same way didn't. A frame that only says what
// was said wakes nobody.
//
//     head 33 | its other parts        | 1 | Epoch object, which tells of a start | tag 32     a frame of format 2
//               what it says otherwise
//
// Each frame tells of one start, in turn among all of them, so what it says otherwise is remembered apart.

/// What carries a signed message is longer. What carries none is far shorter.
const MESSAGE_BYTES: usize = 1_000;

/// A frame begins with its head, which has its counter, and ends with its tag: these differ in each frame.
const HEAD_BYTES: usize = 33;

const TAG_BYTES: usize = 32;

/// An Epoch object begins with the length of its body, which is 10, and its body with its kind, which is 7.
const EPOCH: [u8; 3] = [0, 10, 7];

/// An Epoch object without its signature: the length of its body, its body, and the length of its signature.
const EPOCH_BYTES: usize = 14;

/// How long a signature is, by the height of its key.
const SIGNATURE_BYTES: [usize; 2] = [4_756, 5_076];

/// So many are remembered, twice as many as nodes start: where more flows stand than that, each of their frames is news.
const REMEMBERED: usize = 64;

/// Bytes are remembered by each so-manieth of them: two that carry other messages differ in thousands.
const APART: usize = 61;

/// The prime of FNV-1a for 64 bits.
const PRIME: u64 = 0x0000_0100_0000_01b3;

/// What the last frames of one way said, and of which starts they told.
#[derive(Clone, Copy, Debug)]
pub struct News {
    said: Prints,
    starts: Prints,
}

impl News {
    /// No frame went yet.
    pub const fn new() -> Self {
        News {
            said: Prints::new(),
            starts: Prints::new(),
        }
    }

    /// Whether a frame is news. It is remembered from then on.
    pub fn hears(&mut self, frame: &[u8]) -> bool {
        let (said, start) = parts_of(frame);
        let says_news = MESSAGE_BYTES < said.len() && self.said.hears(said);
        let tells_news = MESSAGE_BYTES < start.len() && self.starts.hears(start);
        says_news || tells_news
    }
}

/// Bytes that came last.
#[derive(Clone, Copy, Debug)]
struct Prints {
    prints: [u64; REMEMBERED],
    next: usize,
}

impl Prints {
    const fn new() -> Self {
        Prints {
            prints: [0; REMEMBERED],
            next: 0,
        }
    }

    /// Whether these aren't among them. They are from then on.
    fn hears(&mut self, bytes: &[u8]) -> bool {
        let print = print_of(bytes);
        if self.prints.contains(&print) {
            return false;
        }
        if let Some(place) = self.prints.get_mut(self.next) {
            *place = print;
        }
        self.next = self.next.saturating_add(1);
        if self.next == REMEMBERED {
            self.next = 0;
        }
        true
    }
}

/// Whether a frame carries a signed message, beside what it tells of a start.
pub fn carries_message(frame: &[u8]) -> bool {
    let (said, _) = parts_of(frame);
    MESSAGE_BYTES < said.len()
}

/// What stands between the head of a frame and its tag: what it says otherwise, and the Epoch object at its end, which may be empty.
fn parts_of(frame: &[u8]) -> (&[u8], &[u8]) {
    let tag = frame.len().saturating_sub(TAG_BYTES);
    let sections = match frame.get(HEAD_BYTES..tag) {
        Some(sections) => sections,
        None => &[],
    };
    let end = sections.len();
    let epoch = SIGNATURE_BYTES
        .iter()
        .map(|signature| end.saturating_sub(signature.saturating_add(EPOCH_BYTES)))
        .find(|place| is_epoch_at(sections, *place))
        .unwrap_or(end);
    sections.split_at(epoch.min(end))
}

fn is_epoch_at(sections: &[u8], place: usize) -> bool {
    match sections.get(place..) {
        Some(object) => object.starts_with(&EPOCH),
        None => false,
    }
}

fn print_of(bytes: &[u8]) -> u64 {
    bytes
        .iter()
        .step_by(APART)
        .fold(bytes.len() as u64, |print, byte| {
            (print ^ u64::from(*byte)).wrapping_mul(PRIME)
        })
}
