// The words of objects, read.
ghost use Rattle.std.specs.Prelude.{◌≡◌, ◌++◌, ◌∷◌, [], OnOk, find, map, option_map};
ghost use Rattle.sp_base.specs.Refusals.{Gives};
ghost use Rattle.sp_lines.specs.Answers.{Reads};
ghost use Rattle.sp_lines.specs.Cells.{same};
ghost use Rattle.sp_journal.specs.Words.{item_word};
ghost use Rattle.sp_journal_reading.specs.ReplyTable.{all_items, item_among, item_at, items_at};

use sp_base::{Listed, Memory};
use sp_journal::{AnswerWord, ItemWord};
use sp_lines::{Fault, LineRefused, named};
use std::alloc::Global;

/// The most items of one arrival that a text tells. A frame has thirteen objects at most.
pub const MAX_ITEMS: usize = 1_024;

/// The word of each item.
const ITEMS: [(&[u8], ItemWord); 51] = [
    (b"weight:new", ItemWord::Weight(AnswerWord::New)),
    (b"weight:foreign", ItemWord::Weight(AnswerWord::Foreign)),
    (b"weight:low", ItemWord::Weight(AnswerWord::Low)),
    (b"weight:old", ItemWord::Weight(AnswerWord::Old)),
    (b"weight:badsig", ItemWord::Weight(AnswerWord::BadSig)),
    (b"prio:new", ItemWord::Prio(AnswerWord::New)),
    (b"prio:badend", ItemWord::Prio(AnswerWord::BadEnd)),
    (b"prio:epoch", ItemWord::Prio(AnswerWord::Epoch)),
    (b"prio:expired", ItemWord::Prio(AnswerWord::Expired)),
    (b"prio:seen", ItemWord::Prio(AnswerWord::Seen)),
    (b"prio:badsig", ItemWord::Prio(AnswerWord::BadSig)),
    (b"ack:new", ItemWord::Ack(AnswerWord::New)),
    (b"ack:badend", ItemWord::Ack(AnswerWord::BadEnd)),
    (b"ack:epoch", ItemWord::Ack(AnswerWord::Epoch)),
    (b"ack:old", ItemWord::Ack(AnswerWord::Old)),
    (b"ack:ahead", ItemWord::Ack(AnswerWord::Ahead)),
    (b"ack:badsig", ItemWord::Ack(AnswerWord::BadSig)),
    (b"rel:new", ItemWord::Rel(AnswerWord::New)),
    (b"rel:badend", ItemWord::Rel(AnswerWord::BadEnd)),
    (b"rel:epoch", ItemWord::Rel(AnswerWord::Epoch)),
    (b"rel:old", ItemWord::Rel(AnswerWord::Old)),
    (b"rel:ahead", ItemWord::Rel(AnswerWord::Ahead)),
    (b"rel:gap", ItemWord::Rel(AnswerWord::Gap)),
    (b"rel:full", ItemWord::Rel(AnswerWord::Full)),
    (b"rel:inboxfull", ItemWord::Rel(AnswerWord::InboxFull)),
    (b"rel:badsig", ItemWord::Rel(AnswerWord::BadSig)),
    (b"kack:new", ItemWord::Kack(AnswerWord::New)),
    (b"kack:badend", ItemWord::Kack(AnswerWord::BadEnd)),
    (b"kack:epoch", ItemWord::Kack(AnswerWord::Epoch)),
    (b"kack:old", ItemWord::Kack(AnswerWord::Old)),
    (b"kack:ahead", ItemWord::Kack(AnswerWord::Ahead)),
    (b"kack:badsig", ItemWord::Kack(AnswerWord::BadSig)),
    (b"krel:new", ItemWord::Krel(AnswerWord::New)),
    (b"krel:badend", ItemWord::Krel(AnswerWord::BadEnd)),
    (b"krel:epoch", ItemWord::Krel(AnswerWord::Epoch)),
    (b"krel:offmask", ItemWord::Krel(AnswerWord::OffMask)),
    (b"krel:old", ItemWord::Krel(AnswerWord::Old)),
    (b"krel:ahead", ItemWord::Krel(AnswerWord::Ahead)),
    (b"krel:gap", ItemWord::Krel(AnswerWord::Gap)),
    (b"krel:full", ItemWord::Krel(AnswerWord::Full)),
    (b"krel:inboxfull", ItemWord::Krel(AnswerWord::InboxFull)),
    (b"krel:badsig", ItemWord::Krel(AnswerWord::BadSig)),
    (b"epoch:new", ItemWord::Epoch(AnswerWord::New)),
    (b"epoch:badend", ItemWord::Epoch(AnswerWord::BadEnd)),
    (b"epoch:old", ItemWord::Epoch(AnswerWord::Old)),
    (b"epoch:badsig", ItemWord::Epoch(AnswerWord::BadSig)),
    (b"document:new", ItemWord::Document(AnswerWord::New)),
    (b"document:bad", ItemWord::Document(AnswerWord::Bad)),
    (b"document:old", ItemWord::Document(AnswerWord::Old)),
    (b"document:badsig", ItemWord::Document(AnswerWord::BadSig)),
    (b"document:strange", ItemWord::Document(AnswerWord::Strange)),
];

/// The items of these words, or the first fault.
pub fn read_items(alloc: Global, words: &[&[u8]]) -> Result<Listed<ItemWord>, LineRefused>
    ensures { Reads result (items_at (map (λ w. w.now) words.now)) }
{
    let mut items = Vec::new(alloc);
    'words: for word in words {
        let item = item(word)?;
        push(&mut items, item)?;
    }
    Ok(Listed::from_vec(items))
}

fn push(items: &mut Vec<ItemWord>, item: ItemWord) -> Result<(), Memory>
    ensures { OnOk result (items.new.items ≡ items.old.items ++ item ∷ []) }
{
    items.push(item)?;
    Ok(())
}

#[tactic(auto, unfolding(crate::specs::ReplyTable::item_at))]
fn item(word: &[u8]) -> Result<ItemWord, Fault>
    ensures { Gives (λ item. item) result (item_at word.now) }
{
    match item_of(word) {
        Some(item) => Ok(item),
        None => Err(Fault::Form),
    }
}

fn item_of(word: &[u8]) -> Option<ItemWord>
    ensures { result ≡ item_among all_items word.now }
{
    item_in(&ITEMS, word)
}

/// The item that has this word, of rows that each have the word of their item.
fn item_in(rows: &[(&[u8], ItemWord)], word: &[u8]) -> Option<ItemWord>
    requires { map (λ row. row.0.now) rows.now ≡ map (λ row. item_word row.1) rows.now }
    ensures { result ≡ item_among (map (λ row. row.1) rows.now) word.now }
{
    row_of(rows, word)
}

/// The item of the first of these rows that has this word.
fn row_of(rows: &[(&[u8], ItemWord)], word: &[u8]) -> Option<ItemWord>
    ensures { result ≡ option_map (λ row. row.1) (find (λ row. same word.now row.0.now) rows.now) }
{
    let row = rows.iter().find(|row| named(word, row.0))?;
    Some(row.1)
}
