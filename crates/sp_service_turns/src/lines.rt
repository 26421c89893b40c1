// The first and the last line of a recording.
ghost use Rattle.std.specs.Prelude.{◌≡◌, IfOk};
ghost use Rattle.std.specs.String.{string_bytes};
ghost use Rattle.sp_service_turns.specs.Daemons.{first_text, last_text};

use sp_base::Memory;
use sp_recording::{Closing, Opening, push_closing, push_opening};
use std::alloc::Global;

pub fn first_line(alloc: Global, opening: &Opening) -> Result<String, Memory>
    ensures { IfOk result (λ text. string_bytes text ≡ first_text opening.now) }
{
    let mut text = String::new(alloc);
    push_opening(&mut text, opening)?;
    Ok(text)
}

pub fn last_line(alloc: Global, closing: &Closing) -> Result<String, Memory>
    ensures { IfOk result (λ text. string_bytes text ≡ last_text closing.now) }
{
    let mut text = String::new(alloc);
    push_closing(&mut text, closing)?;
    Ok(text)
}
