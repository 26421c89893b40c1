//! A run of whole nodes with their adversary: each event is a step of its acting node alone, told in a journal, until something is forged.
//!
//! `World::make` starts the correct nodes of a scenario; with epochs they start by events. `World::step` does an event, or says what of it is forged: a tag or
//! a message that the adversary could only have made by breaking a tag or a signature. Then the run ends: no later event is done, and each is answered the
//! same.
#![tactic(auto)]

mod acts;
mod arrivals;
mod bytes;
mod crafts;
mod documents;
mod home;
mod lives;
mod refused;
mod scene;
mod world;

pub use refused::WorldRefused;
pub use sp_runs::What;
pub use world::World;
