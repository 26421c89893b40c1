// The key states of all nodes of a world.
ghost use Rattle.std.specs.Prelude.{◌≡◌, ◌<◌, ◌^◌, IfErr, IfOk, replicate};
ghost use Rattle.sp_keystate.specs.States.{first_numbers};
ghost use Rattle.sp_epoch.specs.Numbers.{IsOneOf, numbers_at};
ghost use Rattle.sp_epoch.specs.Calls.{IsNext, Reserves, Starts};

use crate::row::Row;
use crate::{EpochRefused, Started};
use sp_base::{Memory, NodeId};
use std::alloc::Global;
use std::marker::Model;

/// The key state of each node of a world, from node 1 on. It is all that outlives a stop of the node.
#[derive(Drop)]
pub struct KeyStates {
    rows: Vec<Row>,
}

impl Model for KeyStates {
    ghost use Rattle.std.specs.Prelude.{List};
    ghost use Rattle.sp_keystate.specs.declared.numbers.Numbers.{Numbers};

    ghost Value = { List Numbers };

    ghost view = { λ k. k.rows.items };
}

impl KeyStates {
    /// Formats a file in memory for each of so many nodes: none was started, and none has an index. `Memory` where there is no room for them.
    pub fn new(alloc: Global, nodes: u8) -> Result<KeyStates, EpochRefused>
        ensures states { IfOk result (λ k. k ≡ replicate nodes first_numbers) }
        ensures memory { IfErr result (λ e. e ≡ EpochRefused.Memory) }
    {
        let mut rows = Vec::new(alloc);
        'states: for _ in 0..nodes {
            rows.push(Row::new()).map_err(Memory::from)?;
        }
        Ok(KeyStates { rows })
    }

    /// How many changes led to a node's key state: one for its format, two for each start, and one for each `more`.
    pub fn serial(&self, u: NodeId) -> u64
        requires { IsOneOf self.now u }
        ensures { result ≡ (numbers_at self.now u).serial }
    {
        self.rows[usize::from(u.0) - 1].serial()
    }

    /// What `start` would answer, with nothing taken.
    pub fn next(&self, u: NodeId, total: u64) -> Result<Started, EpochRefused>
        requires node { IsOneOf self.now u }
        requires serial { (numbers_at self.now u).serial < 2 ^ 62 }
        ensures { IsNext total u self.now result }
    {
        self.rows[usize::from(u.0) - 1].next(total)
    }

    /// Starts a node whose key has so many indexes in all: it takes the next boot, and reserves 32 indexes more, or as many as there are. Where all
    /// are reserved it is refused as `Exhausted`, and all stays as it was, the boot too.
    pub fn start(&mut self, u: NodeId, total: u64) -> Result<Started, EpochRefused>
        requires node { IsOneOf self.old u }
        requires serial { (numbers_at self.old u).serial < 2 ^ 62 }
        ensures { Starts total u self.old self.new result }
    {
        self.rows[usize::from(u.0) - 1].start(total)
    }

    /// Reserves 32 indexes more for a node, or as many as there are, and gives the new bound: those from the old one on may be used too.
    pub fn more(&mut self, u: NodeId, total: u64) -> u64
        requires node { IsOneOf self.old u }
        requires serial { (numbers_at self.old u).serial < 2 ^ 62 }
        requires left { (numbers_at self.old u).bound < total }
        ensures { Reserves total u self.old self.new result }
    {
        self.rows[usize::from(u.0) - 1].more(total)
    }
}
