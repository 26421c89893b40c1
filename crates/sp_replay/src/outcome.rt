// What a run leaves: how it ended, and its world.
ghost use Rattle.std.specs.Prelude.{◌≡◌, None};
ghost use Rattle.sp_words.specs.Statuses.{code_of};

use sp_words::Status;
use sp_world::World;

/// What a run leaves: how it ended, and the world that it made, if it came to that.
#[derive(Drop)]
pub struct Outcome {
    pub status: Status,
    pub world: Option<World>,
}

impl Outcome {
    /// It ended so, and no world was made.
    pub fn ended(status: Status) -> Self
        ensures { result ≡ record { status = status; world = None } }
    {
        Outcome {
            status,
            world: None,
        }
    }

    /// The number with which the program ends. The world is let go.
    pub fn into_code(self) -> u8
        ensures { result ≡ code_of self.status }
    {
        let Outcome { status, world } = self;
        drop(world);
        status.code()
    }
}
