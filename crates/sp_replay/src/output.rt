// The last line that a replay writes, and the journal of a generated run.
ghost use Rattle.std.specs.Prelude.{◌≡◌, ◌++◌, IfOk, OnOk};
ghost use Rattle.std.specs.String.{string_bytes};
ghost use Rattle.sp_journal.specs.JournalText as text;
ghost use Rattle.sp_lines.specs.Rows.{after_spaces, line_text};
ghost use Rattle.sp_replay.specs.Outputs.{forged_line, what_words};
ghost use Rattle.sp_replay.specs.Played.{IsShort};

use laws_runs_format::journals_are_countable;
use sp_base::Memory;
use sp_journal::{journal_text, push_summary};
use sp_lines::{push_field, push_hex_field, push_name_field};
use sp_world::{What, World};
use std::alloc::Global;

/// Appends the line `forged EVENT tag` or `forged EVENT object HEX`.
#[tactic(auto, unfolding(crate::specs::Outputs::forged_line))]
pub fn push_forged(out: &mut String, event: u32, what: &What) -> Result<(), Memory>
    ensures { OnOk result (string_bytes out.new ≡ string_bytes out.old ++ forged_line event what.now) }
{
    out.push_str("forged")?;
    push_field(out, u64::from(event))?;
    push_what(out, what)?;
    out.push_str("\n")?;
    Ok(())
}

/// Appends the words that tell what is forged.
fn push_what(out: &mut String, what: &What) -> Result<(), Memory>
    ensures { OnOk result (string_bytes out.new ≡ string_bytes out.old ++ after_spaces (what_words what.now)) }
{
    match what {
        What::Tag => push_name_field(out, "tag"),
        What::Object(body) => {
            push_name_field(out, "object")?;
            push_hex_field(out, body.as_slice())
        }
    }
}

/// The whole journal with its summary.
#[tactic(auto, using(crate::proofs::Worlds::journal_is_short, crate::proofs::Worlds::deliveries_are_few, crate::proofs::Worlds::priority_is_few))]
pub fn whole(alloc: Global, world: &World) -> Result<String, Memory>
    requires { IsShort world.now }
    ensures { IfOk result (λ out. string_bytes out ≡ text.journal_text world.now.journal) }
{
    journals_are_countable();
    world.is_run();
    journal_text(alloc, world.journal())
}

/// Appends the summary of a world's journal.
#[tactic(auto, using(crate::proofs::Worlds::deliveries_are_few, crate::proofs::Worlds::priority_is_few))]
pub fn push_summary_of(out: &mut String, world: &World) -> Result<(), Memory>
    requires { IsShort world.now }
    ensures { OnOk result (string_bytes out.new ≡ string_bytes out.old ++ line_text (text.summary_words world.now.journal)) }
{
    journals_are_countable();
    world.is_run();
    push_summary(out, world.journal())
}
