// In which order Epoch objects go to each neighbour: one with each frame, in turn.
//
//     for the node in each place:   the place of the row of `Lives` that went to it last, if one did
ghost use Rattle.std.specs.Prelude.{◌≡◌, IfOk, replicate, None as Nothing};
ghost use Rattle.sp_rules.specs.Lives.{last_to, moved};

use crate::Lives;
use sp_base::{Cursor, Memory};
use std::alloc::Global;
use std::marker::Model;

/// For each place of a node the row that went to it last.
#[derive(Debug, Drop)]
pub struct Origins {
    cycles: Vec<Cursor>,
}

impl Model for Origins {
    ghost use Rattle.std.specs.Prelude.{ℕ, List, Option};

    ghost Value = { List (Option ℕ) };

    ghost view = { λ origins. origins.cycles.items };
}

impl Origins {
    /// Nothing went to any of so many nodes. Only want of memory refuses.
    pub fn new(alloc: Global, nodes: usize) -> Result<Origins, Memory>
        ensures { IfOk result (λ origins. origins ≡ replicate nodes Nothing) }
    {
        let mut cycles = Vec::with_capacity(alloc, nodes)?;
        'cycles: for _ in 0..nodes {
            cycles.push(Cursor::start())?;
        }
        Ok(Origins { cycles })
    }

    /// The cycle of the node in this place. Where there is none, it is at its start.
    pub fn cycle_at(&self, v: usize) -> Cursor
        ensures { result ≡ last_to self.entry.now v }
    {
        match self.cycles.get(v) {
            Some(cycle) => *cycle,
            None => Cursor::start(),
        }
    }

    /// The object that goes next to the node in this place went there. Nothing changes where none is held.
    pub fn moved(&mut self, lives: &Lives, v: usize)
        ensures { self.new ≡ moved lives.now self.old v }
    {
        if v >= self.cycles.len() {
            return;
        }
        if let Some(row) = lives.next_row(self, v) {
            self.cycles[v].moved(row);
        }
    }
}
