// The reply of a line, read.
ghost use Rattle.std.specs.Prelude.{◌≡◌, [], ◌∷◌, codes, false, map};
ghost use Rattle.sp_lines.specs.Answers.{Reads};
ghost use Rattle.sp_lines.specs.Cells.{same};
ghost use Rattle.sp_journal_reading.specs.ReplyTable.{form_for, read_for, read_entry, read_form, read_fresh, read_reply};
ghost use Rattle.sp_journal_reading.specs.ReplyTable as forms;

use crate::item_words::{MAX_ITEMS, read_items};
use crate::reply_rows::{
    accepted, adopted, arrived, busy, exhausted, expired, frame, full, learned, low, no_paths,
    payload, payload_prio, short, spent, stale, started, tick_not_reserved, tick_spent, topology,
};
use sp_journal::{LinkWord, Reply, SectionWord};
use sp_lines::{Fault, LineRefused, named, ranged};
use std::alloc::Global;

/// The reply of the words of a line after its number, or the first fault.
pub fn read_reply(alloc: Global, words: &[&[u8]]) -> Result<Reply, LineRefused>
    ensures { Reads result (read_reply (map (λ w. w.now) words.now)) }
{
    let [name, fields @ ..] = words else {
        return Err(LineRefused::Bad(Fault::Form));
    };
    if named(name, b"fresh") {
        return fresh(alloc, fields);
    }
    row(alloc, name, fields)
}

/// The number of an entry and its reply, of the words of a line, or the first fault.
pub fn read_entry(alloc: Global, words: &[&[u8]]) -> Result<(u32, Reply), LineRefused>
    ensures { Reads result (read_entry (map (λ w. w.now) words.now)) }
{
    let [number, words @ ..] = words else {
        return Err(LineRefused::Bad(Fault::Form));
    };
    let number = ranged(number, 1, u64::from(u32::MAX))? as u32;
    let reply = read_reply(alloc, words)?;
    Ok((number, reply))
}

/// What the words after `fresh` say.
#[tactic(auto, unfolding(crate::specs::ReplyTable::read_fresh))]
fn fresh(alloc: Global, words: &[&[u8]]) -> Result<Reply, LineRefused>
    ensures { Reads result (read_fresh (map (λ w. w.now) words.now)) }
{
    if words.len() > MAX_ITEMS {
        return Err(LineRefused::Bad(Fault::Form));
    }
    let items = read_items(alloc, words)?;
    Ok(Reply::Arrived {
        link: LinkWord::Fresh,
        items,
    })
}

/// What the words of a row say.
fn row(alloc: Global, name: &[u8], fields: &[&[u8]]) -> Result<Reply, LineRefused>
    ensures { Reads result (read_for (form_for (name.now ∷ map (λ w. w.now) fields.now)) (name.now ∷ map (λ w. w.now) fields.now)) }
{
    match fields {
        [] => bare(alloc, name),
        [a] => one(alloc, name, a),
        [a, b] => two(alloc, name, a, b),
        [a, b, c] => three(alloc, name, a, b, c),
        _ => Err(LineRefused::Bad(Fault::Form)),
    }
}

#[tactic(auto, unfolding(crate::specs::ReplyTable::read_form))]
fn bare(alloc: Global, name: &[u8]) -> Result<Reply, LineRefused>
    ensures { Reads result (read_for (form_for (name.now ∷ [])) (name.now ∷ [])) }
{
    if named(name, b"empty") {
        return Ok(Reply::Empty);
    }
    if named(name, b"ticked") {
        return Ok(Reply::Ticked);
    }
    if named(name, b"badend") {
        return Ok(Reply::BadEnd);
    }
    if named(name, b"stopped") {
        return Ok(Reply::Stopped);
    }
    if named(name, b"down") {
        return Ok(Reply::Down);
    }
    if named(name, b"toolong") {
        return Ok(arrived(alloc, LinkWord::TooLong));
    }
    if named(name, b"magic") {
        return Ok(arrived(alloc, LinkWord::Magic));
    }
    if named(name, b"version") {
        return Ok(arrived(alloc, LinkWord::Version));
    }
    if named(name, b"notforme") {
        return Ok(arrived(alloc, LinkWord::NotForMe));
    }
    if named(name, b"badtag") {
        return Ok(arrived(alloc, LinkWord::BadTag));
    }
    if named(name, b"withdrawn") {
        return Ok(arrived(alloc, LinkWord::Withdrawn));
    }
    Err(LineRefused::Bad(Fault::Form))
}

fn one(alloc: Global, name: &[u8], a: &[u8]) -> Result<Reply, LineRefused>
    ensures { Reads result (read_for (form_for (name.now ∷ a.now ∷ [])) (name.now ∷ a.now ∷ [])) }
{
    if named(name, b"exhausted") {
        return exhausted(a);
    }
    if named(name, b"section") {
        return section(alloc, a);
    }
    if named(name, b"document") {
        return document(a);
    }
    if named(name, b"busy") {
        return busy(a);
    }
    one_other(alloc, name, a)
}

/// What a name and one word say where it is none of these names.
fn one_other(alloc: Global, name: &[u8], a: &[u8]) -> Result<Reply, LineRefused>
    requires exhausted { same name.now (codes "exhausted") ≡ false }
    requires section { same name.now (codes "section") ≡ false }
    requires document { same name.now (codes "document") ≡ false }
    requires busy { same name.now (codes "busy") ≡ false }
    ensures { Reads result (read_for (form_for (name.now ∷ a.now ∷ [])) (name.now ∷ a.now ∷ [])) }
{
    if named(name, b"accepted") {
        return accepted(a);
    }
    if named(name, b"spent") {
        return spent(a);
    }
    if named(name, b"expired") {
        return expired(a);
    }
    if named(name, b"nopaths") {
        return no_paths(a);
    }
    if named(name, b"payload") {
        return payload(alloc, a);
    }
    if named(name, b"tickspent") {
        return tick_spent(a);
    }
    if named(name, b"ticknotreserved") {
        return tick_not_reserved(a);
    }
    if named(name, b"low") {
        return low(a);
    }
    if named(name, b"learned") {
        return learned(alloc, a);
    }
    if named(name, b"topology") {
        return topology(alloc, a);
    }
    if named(name, b"adopted") {
        return adopted(a);
    }
    Err(LineRefused::Bad(Fault::Form))
}

/// A document that isn't above the node's own.
#[tactic(auto, unfolding(crate::specs::ReplyTable::read_form))]
fn document(answer: &[u8]) -> Result<Reply, LineRefused>
    ensures { Reads result (read_for (form_for (codes "document" ∷ answer.now ∷ [])) (codes "document" ∷ answer.now ∷ [])) }
{
    if named(answer, b"old") {
        return Ok(Reply::DocumentOld);
    }
    Err(LineRefused::Bad(Fault::Form))
}

/// Why the sections of a frame were refused.
#[tactic(auto, unfolding(crate::specs::ReplyTable::read_form))]
fn section(alloc: Global, why: &[u8]) -> Result<Reply, LineRefused>
    ensures { Reads result (read_for (form_for (codes "section" ∷ why.now ∷ [])) (codes "section" ∷ why.now ∷ [])) }
{
    let why = if named(why, b"cut") {
        SectionWord::Cut
    } else if named(why, b"count") {
        SectionWord::Count
    } else if named(why, b"object") {
        SectionWord::Object
    } else if named(why, b"tail") {
        SectionWord::Tail
    } else {
        return Err(LineRefused::Bad(Fault::Form));
    };
    Ok(arrived(alloc, LinkWord::Section(why)))
}

fn two(alloc: Global, name: &[u8], a: &[u8], b: &[u8]) -> Result<Reply, LineRefused>
    ensures { Reads result (read_for (form_for (name.now ∷ a.now ∷ b.now ∷ [])) (name.now ∷ a.now ∷ b.now ∷ [])) }
{
    if named(name, b"full") {
        return full(a, b);
    }
    if named(name, b"started") {
        return started(a, b);
    }
    if named(name, b"short") {
        return short(alloc, a, b);
    }
    if named(name, b"stale") {
        return stale(alloc, a, b);
    }
    Err(LineRefused::Bad(Fault::Form))
}

fn three(alloc: Global, name: &[u8], a: &[u8], b: &[u8], c: &[u8]) -> Result<Reply, LineRefused>
    ensures { Reads result (read_for (form_for (name.now ∷ a.now ∷ b.now ∷ c.now ∷ [])) (name.now ∷ a.now ∷ b.now ∷ c.now ∷ [])) }
{
    if named(name, b"payload") {
        return payload_prio(alloc, a, b, c);
    }
    if named(name, b"frame") {
        return frame(alloc, a, b, c);
    }
    Err(LineRefused::Bad(Fault::Form))
}
