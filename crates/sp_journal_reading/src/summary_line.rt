// The summary of a journal, read and compared with what the entries say.
ghost use Rattle.std.specs.Prelude.{◌≡◌, ◌∷◌, [], ◌==◌, codes, map};
ghost use Rattle.sp_lines.specs.Answers.{Reads};
ghost use Rattle.sp_journal.specs.JournalText.{delivered_count, frame_count, priority_count, sent_count};
ghost use Rattle.sp_journal_reading.specs.Reading.{summary_more};

use crate::Stage;
use sp_base::Listed;
use sp_journal::{Entry, delivered_in, frames, priority_in, sent};
use sp_lines::{Fault, LineRefused, named, ranged};

/// The end of the journal, where the words after `summary` have its five counts.
#[tactic(auto, unfolding(crate::specs::Reading::summary_more))]
pub fn summary(journal: Listed<Entry>, fields: &[&[u8]]) -> Result<Stage, LineRefused>
    ensures { Reads result (summary_more journal (codes "summary" ∷ map (λ w. w.now) fields.now)) }
{
    let [a, events, b, sent, more @ ..] = fields else {
        return Err(LineRefused::Bad(Fault::Form));
    };
    if !named(a, b"events") || !named(b, b"sent") {
        return Err(LineRefused::Bad(Fault::Form));
    }
    after_sent(journal, events, sent, more)
}

#[tactic(auto, unfolding(crate::specs::Reading::summary_more))]
fn after_sent(
    journal: Listed<Entry>,
    events: &[u8],
    sent: &[u8],
    fields: &[&[u8]],
) -> Result<Stage, LineRefused>
    ensures { Reads result (summary_more journal (codes "summary" ∷ codes "events" ∷ events.now ∷ codes "sent" ∷ sent.now
        ∷ map (λ w. w.now) fields.now)) }
{
    let [a, delivered, b, priority, more @ ..] = fields else {
        return Err(LineRefused::Bad(Fault::Form));
    };
    if !named(a, b"delivered") || !named(b, b"priority") {
        return Err(LineRefused::Bad(Fault::Form));
    }
    after_priority(journal, events, sent, delivered, priority, more)
}

#[tactic(auto, unfolding(crate::specs::Reading::summary_more))]
fn after_priority(
    journal: Listed<Entry>,
    events: &[u8],
    sent: &[u8],
    delivered: &[u8],
    priority: &[u8],
    fields: &[&[u8]],
) -> Result<Stage, LineRefused>
    ensures { Reads result (summary_more journal (codes "summary" ∷ codes "events" ∷ events.now ∷ codes "sent" ∷ sent.now
        ∷ codes "delivered" ∷ delivered.now ∷ codes "priority" ∷ priority.now ∷ map (λ w. w.now) fields.now)) }
{
    match fields {
        [a, frames] if named(a, b"frames") => {
            counts(journal, events, sent, delivered, priority, frames)
        }
        _ => Err(LineRefused::Bad(Fault::Form)),
    }
}

#[tactic(auto, unfolding(crate::specs::Reading::summary_more))]
fn counts(
    journal: Listed<Entry>,
    events: &[u8],
    sent: &[u8],
    delivered: &[u8],
    priority: &[u8],
    frames: &[u8],
) -> Result<Stage, LineRefused>
    ensures { Reads result (summary_more journal (codes "summary" ∷ codes "events" ∷ events.now ∷ codes "sent" ∷ sent.now
        ∷ codes "delivered" ∷ delivered.now ∷ codes "priority" ∷ priority.now ∷ codes "frames" ∷ frames.now ∷ [])) }
{
    let events = ranged(events, 0, u64::MAX)?;
    let sent = ranged(sent, 0, u64::MAX)?;
    let delivered = ranged(delivered, 0, u64::MAX)?;
    let priority = ranged(priority, 0, u64::MAX)?;
    let frames = ranged(frames, 0, u64::MAX)?;
    let entries = journal.as_slice();
    if events == entries.len() as u64
        && is_sent_count(entries, sent)
        && is_delivered_count(entries, delivered)
        && is_priority_count(entries, priority)
        && is_frame_count(entries, frames)
    {
        return Ok(Stage::End(journal));
    }
    Err(LineRefused::Bad(Fault::Range))
}

fn is_sent_count(journal: &[Entry], n: u64) -> bool
    ensures { result ≡ (n == sent_count journal.now) }
{
    n == sent(journal)
}

fn is_frame_count(journal: &[Entry], n: u64) -> bool
    ensures { result ≡ (n == frame_count journal.now) }
{
    n == frames(journal)
}

/// Whether so many reliable messages were delivered: they are taken off one entry after the other.
fn is_delivered_count(journal: &[Entry], n: u64) -> bool
    ensures { result ≡ (n == delivered_count journal.now) }
{
    let mut left = n;
    'entries: for entry in journal {
        let here = delivered_in(entry.effects.as_slice());
        if left < here {
            return false;
        }
        left -= here;
    }
    left == 0
}

/// Whether so many priority messages were delivered.
fn is_priority_count(journal: &[Entry], n: u64) -> bool
    ensures { result ≡ (n == priority_count journal.now) }
{
    let mut left = n;
    'entries: for entry in journal {
        let here = priority_in(entry.effects.as_slice());
        if left < here {
            return false;
        }
        left -= here;
    }
    left == 0
}
