// The words of the next line of a text.
ghost use Rattle.std.specs.Prelude.{◌≤◌, ◌+◌, length, map};
ghost use Rattle.sp_lines.specs.Texts.{TakesWords};

use sp_text::{Lines, TextRefused, words};
use std::alloc::Global;

/// The words of the next line. None exactly where nothing is left. What is refused is what stops there: a line that is too long,
/// else one without a newline, else one that isn't words; or want of memory.
pub fn next_words<'a>(
    alloc: Global,
    lines: &mut Lines<'a>,
) -> Result<Option<Vec<&'a [u8]>>, TextRefused>
    ensures { TakesWords (λ ws. map (λ w. w.now) ws.items) lines.old result lines.new }
{
    let Some(line) = lines.next()? else {
        return Ok(None);
    };
    let words = words(alloc, line)?;
    Ok(Some(words))
}
