// The lines of an entry: its reply, and its effects.
ghost use Rattle.std.specs.Prelude.{◌≡◌, ◌++◌, ◌∷◌, [], IfOk, OnOk, map};
ghost use Rattle.std.specs.Fmt.{decimal};
ghost use Rattle.std.specs.List.{flat_map};
ghost use Rattle.std.specs.String.{string_bytes};
ghost use Rattle.sp_lines.specs.Rows.{after_spaces, line_text};
ghost use Rattle.sp_text.specs.Spelling.{hex_word};
ghost use Rattle.sp_journal.specs.JournalText as text;
ghost use Rattle.sp_journal.specs.Words.{answer_word, item_word, link_fields, link_name, reply_fields, reply_name, reply_words, section_word};

use crate::effect_text::push_effect_lines;
use crate::{AnswerWord, Entry, ItemWord, LinkWord, Reply, SectionWord};
use sp_base::Memory;
use sp_lines::{push_field, push_hex_field, push_name_field};
use sp_text::push_number;
use std::alloc::Global;

/// The lines of an entry of this number.
pub fn entry_text(alloc: Global, number: u32, entry: &Entry) -> Result<String, Memory>
    ensures { IfOk result (λ out. string_bytes out ≡ text.entry_text number entry.now) }
{
    let mut out = String::new(alloc);
    push_entry(&mut out, u64::from(number), entry)?;
    Ok(out)
}

/// The same lines without the number and its space, as recordings have them.
#[tactic(auto, unfolding(crate::specs::JournalText::reply_text))]
pub fn reply_text(alloc: Global, entry: &Entry) -> Result<String, Memory>
    ensures { IfOk result (λ out. string_bytes out ≡ text.reply_text entry.now) }
{
    let mut out = String::new(alloc);
    push_reply_line(&mut out, &entry.reply)?;
    push_effect_lines(&mut out, entry.effects.as_slice())?;
    Ok(out)
}

/// Appends the lines of an entry of this number. After an error the text is unspecified.
pub fn push_entry(out: &mut String, number: u64, entry: &Entry) -> Result<(), Memory>
    ensures { OnOk result (string_bytes out.new ≡ string_bytes out.old ++ text.entry_text number entry.now) }
{
    push_number(out, number)?;
    out.push_str(" ")?;
    push_reply_line(out, &entry.reply)?;
    push_effect_lines(out, entry.effects.as_slice())
}

/// Appends the line of a reply.
fn push_reply_line(out: &mut String, reply: &Reply) -> Result<(), Memory>
    ensures { OnOk result (string_bytes out.new ≡ string_bytes out.old ++ line_text (reply_words reply.now)) }
{
    out.push_str(reply_name(reply))?;
    push_fields(out, reply)?;
    out.push_str("\n")?;
    Ok(())
}

/// The first word of a reply.
fn reply_name(reply: &Reply) -> &'static str
    ensures { result.now ≡ reply_name reply.now }
{
    match reply {
        Reply::Accepted { .. } => "accepted",
        Reply::Full { .. } => "full",
        Reply::Spent { .. } => "spent",
        Reply::Expired { .. } => "expired",
        Reply::NoPaths { .. } => "nopaths",
        Reply::Busy { .. } => "busy",
        Reply::Payload(_) | Reply::PayloadPrio { .. } => "payload",
        Reply::Empty => "empty",
        Reply::Ticked => "ticked",
        Reply::TickSpent { .. } => "tickspent",
        Reply::TickNotReserved { .. } => "ticknotreserved",
        Reply::Low { .. } => "low",
        Reply::BadEnd => "badend",
        Reply::Frame { .. } => "frame",
        Reply::Arrived { link, .. } => link_name(*link),
        Reply::Started { .. } => "started",
        Reply::Exhausted { .. } => "exhausted",
        Reply::Stopped => "stopped",
        Reply::Down => "down",
        Reply::Adopted { .. } => "adopted",
        Reply::DocumentOld => "document",
    }
}

/// The first word of what a link answered.
fn link_name(link: LinkWord) -> &'static str
    ensures { result.now ≡ link_name link }
{
    match link {
        LinkWord::TooLong => "toolong",
        LinkWord::Short { .. } => "short",
        LinkWord::Magic => "magic",
        LinkWord::Version => "version",
        LinkWord::NotForMe => "notforme",
        LinkWord::BadTag => "badtag",
        LinkWord::Learned { .. } => "learned",
        LinkWord::Stale { .. } => "stale",
        LinkWord::Topology { .. } => "topology",
        LinkWord::Section(_) => "section",
        LinkWord::Withdrawn => "withdrawn",
        LinkWord::Fresh => "fresh",
    }
}

/// Appends the other words of a reply, each after a space.
fn push_fields(out: &mut String, reply: &Reply) -> Result<(), Memory>
    ensures { OnOk result (string_bytes out.new ≡ string_bytes out.old ++ after_spaces (reply_fields reply.now)) }
{
    match reply {
        Reply::Accepted { seq: n }
        | Reply::Spent { index: n }
        | Reply::Expired { now: n }
        | Reply::TickSpent { index: n }
        | Reply::TickNotReserved { bound: n }
        | Reply::Exhausted { bound: n } => push_field(out, *n),
        Reply::Full { base: a, have: b } | Reply::Started { boot: a, index: b } => {
            push_two(out, *a, *b)
        }
        Reply::NoPaths { found: n } | Reply::Busy { paths: n } => push_field(out, u64::from(*n)),
        Reply::Payload(payload) => push_hex_field(out, payload.as_slice()),
        Reply::PayloadPrio { src, seq, payload } => {
            push_two(out, u64::from(src.0), *seq)?;
            push_hex_field(out, payload.as_slice())
        }
        Reply::Empty | Reply::Ticked | Reply::BadEnd | Reply::Stopped | Reply::Down => Ok(()),
        Reply::Adopted { version } => push_field(out, u64::from(*version)),
        Reply::DocumentOld => push_name_field(out, "old"),
        Reply::Low { min } => push_field(out, u64::from(*min)),
        Reply::Frame {
            number,
            length,
            digest,
        } => {
            push_two(out, u64::from(*number), u64::from(*length))?;
            push_hex_field(out, digest.as_slice())
        }
        Reply::Arrived { link, items } => push_arrival(out, *link, items.as_slice()),
    }
}

/// Appends two numbers.
fn push_two(out: &mut String, first: u64, second: u64) -> Result<(), Memory>
    ensures { OnOk result (string_bytes out.new ≡ string_bytes out.old ++ after_spaces (decimal first ∷ decimal second ∷ [])) }
{
    push_field(out, first)?;
    push_field(out, second)
}

/// Appends what a link answered after its first word, and the word of each object.
fn push_arrival(out: &mut String, link: LinkWord, items: &[ItemWord]) -> Result<(), Memory>
    ensures { OnOk result (string_bytes out.new ≡ string_bytes out.old ++ after_spaces (link_fields link ++ map item_word items.now)) }
{
    push_link(out, link)?;
    push_items(out, items)
}

fn push_link(out: &mut String, link: LinkWord) -> Result<(), Memory>
    ensures { OnOk result (string_bytes out.new ≡ string_bytes out.old ++ after_spaces (link_fields link)) }
{
    match link {
        LinkWord::Short { need, left } => push_two(out, need, left),
        LinkWord::Learned { boot } => push_field(out, boot),
        LinkWord::Stale { boot, counter } => push_two(out, boot, counter),
        LinkWord::Topology { theirs } => push_field(out, u64::from(theirs)),
        LinkWord::Section(why) => push_name_field(out, section_word(why)),
        LinkWord::TooLong
        | LinkWord::Magic
        | LinkWord::Version
        | LinkWord::NotForMe
        | LinkWord::BadTag
        | LinkWord::Withdrawn
        | LinkWord::Fresh => Ok(()),
    }
}

fn section_word(why: SectionWord) -> &'static str
    ensures { result.now ≡ section_word why }
{
    match why {
        SectionWord::Cut => "cut",
        SectionWord::Count => "count",
        SectionWord::Object => "object",
        SectionWord::Tail => "tail",
    }
}

fn push_items(out: &mut String, items: &[ItemWord]) -> Result<(), Memory>
    ensures { OnOk result (string_bytes out.new ≡ string_bytes out.old ++ flat_map (λ item. 32 ∷ item_word item) items.now) }
{
    'items: for item in items {
        push_item(out, *item)?;
    }
    Ok(())
}

fn push_item(out: &mut String, item: ItemWord) -> Result<(), Memory>
    ensures { OnOk result (string_bytes out.new ≡ string_bytes out.old ++ (32 ∷ item_word item)) }
{
    let (object, answer) = match item {
        ItemWord::Weight(answer) => (" weight:", answer),
        ItemWord::Prio(answer) => (" prio:", answer),
        ItemWord::Ack(answer) => (" ack:", answer),
        ItemWord::Rel(answer) => (" rel:", answer),
        ItemWord::Kack(answer) => (" kack:", answer),
        ItemWord::Krel(answer) => (" krel:", answer),
        ItemWord::Epoch(answer) => (" epoch:", answer),
        ItemWord::Document(answer) => (" document:", answer),
    };
    out.push_str(object)?;
    out.push_str(answer_word(answer))?;
    Ok(())
}

fn answer_word(answer: AnswerWord) -> &'static str
    ensures { result.now ≡ answer_word answer }
{
    match answer {
        AnswerWord::New => "new",
        AnswerWord::BadEnd => "badend",
        AnswerWord::Epoch => "epoch",
        AnswerWord::OffMask => "offmask",
        AnswerWord::Foreign => "foreign",
        AnswerWord::Low => "low",
        AnswerWord::Old => "old",
        AnswerWord::Expired => "expired",
        AnswerWord::Seen => "seen",
        AnswerWord::Ahead => "ahead",
        AnswerWord::Gap => "gap",
        AnswerWord::Full => "full",
        AnswerWord::InboxFull => "inboxfull",
        AnswerWord::BadSig => "badsig",
        AnswerWord::Bad => "bad",
        AnswerWord::Strange => "strange",
    }
}
