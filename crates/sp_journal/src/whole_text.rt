// A journal as text.
ghost use Rattle.std.specs.Prelude.{◌≡◌, ◌<◌, ◌^◌, ◌++◌, ◌∷◌, [], length, filter, IfOk, OnOk};
ghost use Rattle.std.specs.Fmt.{decimal};
ghost use Rattle.std.specs.String.{string_bytes};
ghost use Rattle.sp_lines.specs.Rows.{after_spaces, line_text};
ghost use Rattle.sp_journal.specs.JournalText.{delivered_count, entries_from, frame_count, is_delivered, is_delivered_prio, is_frame};
ghost use Rattle.sp_journal.specs.JournalText.{is_rel_body, is_sent, priority_count, sent_count, starts_rel, summary_of, summary_words};
ghost use Rattle.sp_journal.specs.JournalText as text;

use crate::replies::push_entry;
use crate::{Entry, Reply};
use sp_base::Memory;
use sp_lines::{push_field, push_name_field};
use sp_msg::Effect;
use std::alloc::Global;

/// The journal without its summary.
pub fn journal_lines(alloc: Global, journal: &[Entry]) -> Result<String, Memory>
    requires { length journal.now < 2 ^ 32 }
    ensures { IfOk result (λ out. string_bytes out ≡ text.journal_lines journal.now) }
{
    let mut out = String::from_str(alloc, "journal 1\n")?;
    push_entries(&mut out, journal)?;
    Ok(out)
}

/// The whole journal.
pub fn journal_text(alloc: Global, journal: &[Entry]) -> Result<String, Memory>
    requires entries { length journal.now < 2 ^ 32 }
    requires deliveries { delivered_count journal.now < 2 ^ 64 }
    requires priority { priority_count journal.now < 2 ^ 64 }
    ensures { IfOk result (λ out. string_bytes out ≡ text.journal_text journal.now) }
{
    let mut out = journal_lines(alloc, journal)?;
    push_summary(&mut out, journal)?;
    Ok(out)
}

/// Appends the line of the summary. After an error the text is unspecified.
pub fn push_summary(out: &mut String, journal: &[Entry]) -> Result<(), Memory>
    requires deliveries { delivered_count journal.now < 2 ^ 64 }
    requires priority { priority_count journal.now < 2 ^ 64 }
    ensures { OnOk result (string_bytes out.new ≡ string_bytes out.old ++ line_text (summary_words journal.now)) }
{
    let (reliable, priority) = delivered(journal);
    push_counts(
        out,
        journal.len() as u64,
        sent(journal),
        reliable,
        priority,
        frames(journal),
    )
}

fn push_entries(out: &mut String, journal: &[Entry]) -> Result<(), Memory>
    requires { length journal.now < 2 ^ 32 }
    ensures { OnOk result (string_bytes out.new ≡ string_bytes out.old ++ entries_from 1 journal.now) }
{
    'entries: for (before, entry) in journal.iter().enumerate() {
        push_entry(out, before as u64 + 1, entry)?;
    }
    Ok(())
}

/// Appends the summary of these counts.
fn push_counts(
    out: &mut String,
    events: u64,
    sent: u64,
    delivered: u64,
    priority: u64,
    frames: u64,
) -> Result<(), Memory>
    ensures { OnOk result (string_bytes out.new ≡ string_bytes out.old ++ line_text (summary_of events sent delivered priority frames)) }
{
    out.push_str("summary")?;
    push_counted(out, "events", events)?;
    push_counted(out, "sent", sent)?;
    push_counted(out, "delivered", delivered)?;
    push_counted(out, "priority", priority)?;
    push_counted(out, "frames", frames)?;
    out.push_str("\n")?;
    Ok(())
}

fn push_counted(out: &mut String, name: &str, n: u64) -> Result<(), Memory>
    ensures { OnOk result (string_bytes out.new ≡ string_bytes out.old ++ after_spaces (name.now ∷ decimal n ∷ [])) }
{
    push_name_field(out, name)?;
    push_field(out, n)
}

/// How many reliable messages were sent.
pub fn sent(journal: &[Entry]) -> u64
    ensures { result ≡ sent_count journal.now }
{
    let mut count = 0u64;
    'entries: for entry in journal {
        if is_sent(entry) {
            count += 1;
        }
    }
    count
}

/// Whether a reliable message was accepted: what that caused first is that it was signed.
#[tactic(auto, unfolding(crate::specs::JournalText::is_sent))]
fn is_sent(entry: &Entry) -> bool
    ensures { result ≡ is_sent entry.now }
{
    match entry.reply {
        Reply::Accepted { .. } => starts_rel(entry.effects.as_slice()),
        _ => false,
    }
}

fn starts_rel(effects: &[Effect]) -> bool
    ensures { result ≡ starts_rel effects.now }
{
    match effects {
        [first, ..] => is_rel_body(first),
        [] => false,
    }
}

fn is_rel_body(effect: &Effect) -> bool
    ensures { result ≡ is_rel_body effect.now }
{
    match effect {
        Effect::Signed(body) => matches!(body.as_slice(), [2, ..]),
        _ => false,
    }
}

/// How many frames were made.
pub fn frames(journal: &[Entry]) -> u64
    ensures { result ≡ frame_count journal.now }
{
    let mut count = 0u64;
    'entries: for entry in journal {
        if is_frame(entry) {
            count += 1;
        }
    }
    count
}

/// Whether a frame was made.
#[tactic(auto, unfolding(crate::specs::JournalText::is_frame))]
fn is_frame(entry: &Entry) -> bool
    ensures { result ≡ is_frame entry.now }
{
    matches!(entry.reply, Reply::Frame { .. })
}

/// How many reliable messages were delivered, and how many priority messages.
fn delivered(journal: &[Entry]) -> (u64, u64)
    requires deliveries { delivered_count journal.now < 2 ^ 64 }
    requires priority { priority_count journal.now < 2 ^ 64 }
    ensures reliable { result.0 ≡ delivered_count journal.now }
    ensures priority { result.1 ≡ priority_count journal.now }
{
    let mut reliable = 0u64;
    let mut priority = 0u64;
    'entries: for entry in journal {
        let effects = entry.effects.as_slice();
        reliable += delivered_in(effects);
        priority += priority_in(effects);
    }
    (reliable, priority)
}

/// How many of these effects deliver a reliable message.
pub fn delivered_in(effects: &[Effect]) -> u64
    ensures { result ≡ length (filter is_delivered effects.now) }
{
    effects.iter().filter(|e| is_delivered(e)).count() as u64
}

/// How many of these effects deliver a priority message.
pub fn priority_in(effects: &[Effect]) -> u64
    ensures { result ≡ length (filter is_delivered_prio effects.now) }
{
    effects.iter().filter(|e| is_delivered_prio(e)).count() as u64
}

fn is_delivered(effect: &Effect) -> bool
    ensures { result ≡ is_delivered effect.now }
{
    matches!(effect, Effect::Delivered { .. })
}

fn is_delivered_prio(effect: &Effect) -> bool
    ensures { result ≡ is_delivered_prio effect.now }
{
    matches!(effect, Effect::DeliveredPrio { .. })
}
