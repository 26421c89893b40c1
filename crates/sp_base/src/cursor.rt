// A place in a cycle of places, of which only some are active at a time.
ghost use Rattle.std.specs.Prelude.{◌≡◌, ◌<◌, ◌≤◌, length, IfSome, position};
ghost use Rattle.sp_base.specs.Cursor.{next_after, first_active_from};

use std::marker::Model;

/// Where service in turn stands: the place that was served last, or none yet.
#[derive(Clone, Copy, Debug)]
pub struct Cursor {
    last: Option<usize>,
}

impl Model for Cursor {
    ghost use Rattle.std.specs.Prelude.{ℕ, Option};

    ghost Value = { Option ℕ };

    ghost view = { λ c. c.last };

    ghost inverse = { λ last. record { last = last } };
}

impl Cursor {
    pub fn start() -> Cursor
        ensures { result ≡ None }
    {
        Cursor { last: None }
    }

    /// The place to serve next: the least active one above the last, else the least active one.
    /// None exactly where no place is active.
    pub fn next(&self, active: &[bool]) -> Option<usize>
        ensures { result ≡ next_after self.now active.now }
    {
        match self.last {
            Some(last) if last < active.len() => {
                first_from(last + 1, active).or(first_from(0, active))
            }
            _ => first_from(0, active),
        }
    }

    /// The place was served.
    pub fn moved(&mut self, to: usize)
        ensures { self.new ≡ Some to }
    {
        self.last = Some(to);
    }
}

/// The least active place from this one on.
fn first_from(place: usize, active: &[bool]) -> Option<usize>
    requires { place ≤ length active.now }
    ensures { result ≡ first_active_from place active.now }
{
    let skipped = first_active(&active[place..])?;
    Some(place + skipped)
}

/// The least active place.
fn first_active(active: &[bool]) -> Option<usize>
    ensures place { result ≡ position (λ is_active. is_active) active.now }
    ensures within { IfSome result (λ place. place < length active.now) }
{
    active.iter().position(|is_active| *is_active)
}
