//! The outside as traits: where input comes from, where output goes, datagrams, the clock and a small file. Each object
//! counts its faults, and a call fails only where that count rose in this very call.
#![tactic(auto)]

mod calls;
mod clock;
mod failed;
mod file_bytes;
mod keeper;
mod keeper_calls;
mod memory_clock;
mod memory_keeper;
mod memory_wire;
mod planned_keeper;
mod recorded;
mod side;
mod sink;
mod source;
mod streams;
mod wire;

pub use calls::{Coming, Kept, WirePlan};
pub use clock::Clock;
pub use failed::Failed;
pub use keeper::{FILE_BYTES, Keeper};
pub use keeper_calls::{KeeperCall, KeeperPlan};
pub use memory_clock::MemoryClock;
pub use memory_keeper::MemoryKeeper;
pub use memory_wire::MemoryWire;
pub use planned_keeper::PlannedKeeper;
pub use side::Side;
pub use sink::{MemorySink, PlannedSink, Sink};
pub use source::{MemorySource, PlannedSource, Source};
pub use streams::{Input, ReadRefused, read_up_to, write_all};
pub use wire::{DATAGRAM_BYTES, Wire};
