// What a draft comes to, as the text that is written.
ghost use Rattle.std.specs.Prelude.{◌≡◌, ◌≢◌, IfErr, IfOk};
ghost use Rattle.sp_offline.specs.DraftAnswers.{IsAnswer, SaysDraft};

use crate::signed_draft::signed_text;
use sp_base::{Bytes, Memory};
use sp_config::{ConfigRefused, Draft, read_draft, refused_line, too_big_line};
use std::alloc::Global;
use std::str;

/// What a draft comes to, as the text that is written.
#[derive(Debug, Drop)]
pub enum DraftAnswer {
    /// The signed document and the administrator's key, a line each.
    Signed(Bytes),
    /// Why the draft is refused, in one line.
    Refused(Bytes),
}

/// The signed document of a draft in TOML, and the administrator's key, in hexadecimal, or the line that refuses the draft: the first
/// refusal in the order of `ConfigRefused`. A text that `is_cut` had more bytes than may be read, and is refused for that.
pub fn signed_topology(alloc: Global, text: &[u8], is_cut: bool) -> Result<DraftAnswer, Memory>
    ensures { IfOk result (IsAnswer text.now is_cut) }
{
    if is_cut {
        return Ok(DraftAnswer::Refused(too_big_line(alloc)?));
    }
    match draft_in(alloc, text) {
        Ok(draft) => Ok(DraftAnswer::Signed(signed_text(alloc, &draft)?)),
        Err(ConfigRefused::Memory) => Err(Memory),
        Err(refused) => Ok(DraftAnswer::Refused(refused_line(alloc, &refused)?)),
    }
}

/// The draft that a text says. Bytes that are no UTF-8 are no TOML.
fn draft_in(alloc: Global, text: &[u8]) -> Result<Draft, ConfigRefused>
    ensures ok { IfOk result (λ draft. SaysDraft text.now (Ok draft)) }
    ensures err { IfErr result (λ refused. refused ≢ ConfigRefused.Memory → SaysDraft text.now (Err refused)) }
{
    match str::from_utf8(text) {
        Ok(text) => read_draft(alloc, text),
        Err(_) => Err(ConfigRefused::Toml),
    }
}
