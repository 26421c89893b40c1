// How fast a daemon turns: it rests while nothing happens, and goes with its neighbours while messages come. A neighbour that has a frame to
// answer is sent no other, so none is sent more frames than it takes.
//
//     made for a neighbour     1 sent      2 not sent                3 sent
//     heard of it                                        its answer

use crate::news::{News, carries_message};
use sp_base::MAX_NODES_2;

/// More neighbours than any topology of any format has.
const MOST_NEIGHBOURS: usize = MAX_NODES_2 as usize;

/// After so many cycles of its neighbours without news a daemon rests.
const QUIET: u8 = 8;

/// So many frames that aren't sent are made while a client asks, before a daemon holds.
const MOST_AHEAD: u8 = 3;

/// After so many that weren't sent one goes in any case: the one before may be lost.
const MOST_UNSENT: u8 = 32;

/// A neighbour that so often gave nothing in a long wait counts as silent: nobody waits for it.
const SILENT: u8 = 3;

/// What a daemon does before it looks for a datagram of a neighbour.
#[derive(Clone, Copy, Debug, PartialEq, Eq)]
pub enum Pause {
    /// It takes what is there, if anything is.
    No,
    /// It waits for a neighbour, since each has a frame to answer. A client ends the wait where this says so.
    Hold { for_clients: bool },
    /// It waits until news, a client or the time of the next frame comes.
    Rest,
}

/// What a neighbour has to answer: a frame without a message, or one with a message.
#[derive(Clone, Copy, Debug, PartialEq, Eq)]
enum Owed {
    Nothing,
    Word,
    Message,
}

/// A neighbour by its port, once a frame went there.
#[derive(Clone, Copy, Debug)]
struct Neighbour {
    port: Option<u16>,
    /// What was sent to it since a frame came from it last.
    owed: Owed,
    /// How many frames for it weren't sent since then.
    unsent: u8,
    /// How many long waits for it ended with nothing since it was heard, at most `SILENT`.
    missed: u8,
    /// The frames that were made for it last.
    made: News,
}

impl Neighbour {
    const fn at(port: Option<u16>) -> Self {
        Neighbour {
            port,
            owed: Owed::Nothing,
            unsent: 0,
            missed: 0,
            made: News::new(),
        }
    }

    /// A frame came from it.
    fn hear(&mut self) {
        self.owed = Owed::Nothing;
        self.unsent = 0;
        self.missed = 0;
    }

    fn is_silent(&self) -> bool {
        self.missed == SILENT
    }

    /// Whether it has nothing to answer, and answers.
    fn is_free(&self) -> bool {
        self.port.is_some() && self.owed == Owed::Nothing && !self.is_silent()
    }

    /// Whether this frame is sent: a message doesn't wait for the answer to a frame without one.
    fn is_ready(&self, is_message: bool) -> bool {
        let waits = match self.owed {
            Owed::Nothing => false,
            Owed::Word => !is_message,
            Owed::Message => true,
        };
        !waits || self.is_silent() || MOST_UNSENT <= self.unsent
    }

    /// A frame was made for it, and sent or not.
    fn note(&mut self, is_message: bool, goes: bool) {
        self.unsent = if goes {
            0
        } else {
            self.unsent.saturating_add(1)
        };
        if is_message {
            self.owed = Owed::Message;
        } else if self.owed == Owed::Nothing {
            self.owed = Owed::Word;
        }
    }
}

/// Where a daemon stands in the cycle of its neighbours, and what happened in it.
#[derive(Clone, Copy, Debug)]
pub struct Pace {
    /// In the order of the cycle.
    neighbours: [Neighbour; MOST_NEIGHBOURS],
    /// The place of the neighbour whose turn it is. A cycle begins with the first.
    next: usize,
    /// Whether a cycle ended, so that all neighbours are known.
    knows_all: bool,
    /// How many cycles ago the last news came or was made, at most `QUIET`.
    quiet: u8,
    /// Whether a request came in the last turn.
    was_asked: bool,
    /// So many turns are made without a rest, since a client asked for something that may go to any neighbour.
    hurry: usize,
    /// Whether the daemon holds.
    holds: bool,
}

impl Pace {
    /// Nothing was sent yet.
    pub fn new() -> Self {
        Pace {
            neighbours: [Neighbour::at(None); MOST_NEIGHBOURS],
            next: 0,
            knows_all: false,
            quiet: 0,
            was_asked: false,
            hurry: 0,
            holds: false,
        }
    }

    /// Whether a cycle begins.
    pub fn begins(&self) -> bool {
        self.next == 0
    }

    /// What to do before the next receive from neighbours.
    pub fn pause(&mut self) -> Pause {
        if self.begins() {
            self.quiet = self.quiet.saturating_add(1).min(QUIET);
        }
        let may_go = self.unsent_to_next() < MOST_AHEAD;
        let was_asked = self.was_asked;
        let hurries = 0 < self.hurry;
        self.was_asked = false;
        self.hurry = self.hurry.saturating_sub(1);
        self.holds = false;
        if self.rests() {
            return if hurries { Pause::No } else { Pause::Rest };
        }
        if !self.knows_all
            || (was_asked && may_go)
            || self.neighbours.iter().any(Neighbour::is_free)
        {
            return Pause::No;
        }
        self.holds = true;
        Pause::Hold {
            for_clients: may_go,
        }
    }

    fn unsent_to_next(&self) -> u8 {
        match self.neighbours.get(self.next) {
            Some(neighbour) => neighbour.unsent,
            None => 0,
        }
    }

    /// Whether there was no news for a while, or no neighbour answers.
    fn rests(&self) -> bool {
        self.quiet == QUIET
            || (self.knows_all
                && self.neighbours.iter().all(|neighbour| neighbour.port.is_none()
                    || neighbour.is_silent()))
    }

    /// A datagram came from this port of a neighbour. One of another port is no answer.
    pub fn heard(&mut self, port: u16, is_news: bool) {
        let Some(place) = self.place_of(Some(port)) else {
            self.unheard();
            return;
        };
        if let Some(neighbour) = self.neighbours.get_mut(place) {
            neighbour.hear();
        }
        if is_news {
            self.quiet = 0;
        }
    }

    /// No answer came. Where the daemon held, what the neighbour had to answer is lost.
    pub fn unheard(&mut self) {
        if !self.holds {
            return;
        }
        if let Some(neighbour) = self.neighbours.get_mut(self.next) {
            neighbour.owed = Owed::Nothing;
            neighbour.missed = neighbour.missed.saturating_add(1).min(SILENT);
        }
    }

    /// A client asked for something. What comes of it goes to each neighbour once without a rest.
    pub fn asked(&mut self) {
        self.was_asked = true;
        self.hurry = self
            .neighbours
            .iter()
            .filter(|neighbour| neighbour.port.is_some())
            .count();
    }

    /// There is a frame for the neighbour of this port. Gives whether it is sent. A daemon that rests sends each.
    pub fn goes_to(&mut self, port: u16, frame: &[u8]) -> bool {
        let known = self.place_of(Some(port));
        self.knows_all = self.knows_all || known.is_some();
        let Some(place) = known.or_else(|| self.place_of(None)) else {
            return true;
        };
        self.next = self.place_after(place);
        let rests = self.rests();
        let Some(neighbour) = self.neighbours.get_mut(place) else {
            return true;
        };
        neighbour.port = Some(port);
        let is_message = carries_message(frame);
        let goes = rests || neighbour.is_ready(is_message);
        neighbour.note(is_message, goes);
        if neighbour.made.hears(frame) {
            self.quiet = 0;
        }
        goes
    }

    /// The place after this one in the cycle.
    fn place_after(&self, place: usize) -> usize {
        match self.neighbours.get(place.saturating_add(1)) {
            Some(Neighbour { port: Some(_), .. }) => place.saturating_add(1),
            _ => 0,
        }
    }

    fn place_of(&self, port: Option<u16>) -> Option<usize> {
        self.neighbours
            .iter()
            .position(|neighbour| neighbour.port == port)
    }
}
