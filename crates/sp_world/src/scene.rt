// All of a world that events change.
ghost use Rattle.std.specs.Prelude.{◌≡◌};
ghost use Rattle.sp_runs.specs.Inputs.{acting};
ghost use Rattle.sp_runs.specs.Lives.{comes_to_nobody, is_missing};
ghost use Rattle.sp_runs.specs.Worlds.{World};
ghost use Rattle.sp_world.specs.Scenes.{world_in};

use sp_adversary::Crafters;
use sp_epoch::KeyStates;
use sp_schedule_events::{Event, Published};
use sp_world_steps::{Directions, Member, member_of};
use std::marker::Model;

/// The key files of all nodes, the correct nodes that run, all frames, the signers for crafted objects, and the last version that was published.
#[derive(Drop)]
pub struct Scene {
    pub keys: KeyStates,
    pub nodes: Vec<Member>,
    pub directions: Directions,
    pub crafters: Crafters,
    pub published: Published,
}

impl Model for Scene {
    ghost use Rattle.sp_world.specs.Scenes as scenes;

    ghost Value = { scenes.Scene };

    ghost view = { λ c. record { keys = c.keys; nodes = c.nodes.items; directions = c.directions; crafters = c.crafters; published = c.published } };
}

impl Scene {
    /// Whether nobody runs who would act, or the frame that would arrive isn't there.
    pub fn comes_to_nobody(&self, event: &Event) -> bool
        ensures { result ≡ comes_to_nobody (world_in self.now) event.now }
    {
        match member_of(&self.nodes, event.acting()) {
            Some(_) => is_missing(&self.directions, event),
            None => true,
        }
    }
}

/// Whether the event passes on a frame that isn't there.
fn is_missing(directions: &Directions, event: &Event) -> bool
    ensures { (w : World) → w.directions ≡ directions.now → result ≡ is_missing w event.now }
{
    match event {
        Event::Pass { u, v, number } | Event::Flip { u, v, number, .. } => {
            directions.frame(*u, *v, *number).is_none()
        }
        _ => false,
    }
}
