// The numbers of one source that were seen. A ring keeps in each place the last number marked with that remainder, so nothing is cleared
// as the window slides:
//
//     place        0        1        2       ...     1,023
//     holds        2,048    1,025    2                1,023      greatest 2,048: 1,025, 2,048 are marked; 2 and 1,023 are past
ghost use Rattle.std.specs.Prelude.{◌≡◌, [], not, replicate, slice_set};
ghost use Rattle.sp_rules.specs.Window.{is_seen, with_mark};

use sp_rules::WINDOW;
use std::marker::Model;

/// The numbers of one source that were seen: of the last 1,024 up to the greatest those that are marked, and all before these.
#[derive(Debug, Drop)]
pub struct Window {
    greatest: u64,
    ring: [u64; 1024],
}

impl Model for Window {
    ghost use Rattle.std.specs.Prelude.{ℕ, List};
    ghost use Rattle.sp_dedup.specs.Ring.{IsRing, marked_in};

    ghost Value = { List ℕ };

    ghost view = { λ w. marked_in w.greatest w.ring };

    ghost invariant = { λ w. IsRing w.greatest w.ring };
}

impl Window {
    /// No number was seen.
    #[tactic(auto, using(crate::proofs::RingLemmas::first_is_ring, crate::proofs::RingLemmas::first_is_empty))]
    pub fn new() -> Window
        ensures { result ≡ [] }
    {
        Window {
            greatest: 0,
            ring: first_ring(),
        }
    }

    /// Whether the number counts as seen: it is marked, or at most the greatest mark less 1,024.
    #[tactic(auto, using(crate::proofs::RingLemmas::seen_by_place))]
    pub fn seen(&self, seq: u64) -> bool
        ensures { result ≡ is_seen self.now seq }
    {
        self.ring[(seq % WINDOW as u64) as usize] == seq
            || self.greatest >= WINDOW as u64 && seq <= self.greatest - WINDOW as u64
    }

    /// Marks the number. True exactly where it wasn't seen; a number that was seen changes nothing.
    #[tactic(auto, using(crate::proofs::RingLemmas::marked_so, crate::proofs::RingLemmas::marked_again))]
    pub fn first(&mut self, seq: u64) -> bool
        ensures answer { result ≡ not (is_seen self.old seq) }
        ensures window { self.new ≡ with_mark self.old seq }
    {
        if self.seen(seq) {
            return false;
        }
        self.ring[(seq % WINDOW as u64) as usize] = seq;
        self.greatest = self.greatest.max(seq);
        true
    }

    /// No number was seen, as at first. It takes no memory.
    pub fn clear(&mut self)
        ensures { self.new ≡ [] }
    {
        *self = Window::new();
    }
}

/// A ring of which no place holds a number of its own remainder.
fn first_ring() -> [u64; 1024]
    ensures { result ≡ slice_set (replicate WINDOW 0) 0 1 }
{
    let mut ring = [0; 1024];
    ring[0] = 1;
    ring
}
