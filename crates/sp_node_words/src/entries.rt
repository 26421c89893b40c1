// The entries of a journal, by what a node answered and what that caused.
ghost use Rattle.std.specs.Prelude.{◌≡◌, ◌≤◌, [], IfOk, length, map, vec_capacity};
ghost use Rattle.sp_node_words.specs.Words.{item_word, link_word};

use crate::words::{item_words, link_word};
use sp_base::{Listed, Memory};
use sp_journal::{Entry, ItemWord, Reply};
use sp_msg::Effects;
use sp_rules::{Step, Taken};
use std::alloc::Global;

/// An entry without effects. It takes no memory.
pub fn quiet(alloc: Global, reply: Reply) -> Entry
    ensures reply { result.reply ≡ reply }
    ensures effects { result.effects ≡ [] }
{
    Entry {
        reply,
        effects: Listed::from_vec(Vec::new(alloc)),
    }
}

/// An entry with these effects. It takes no memory.
pub fn told(reply: Reply, effects: Effects) -> Entry
    ensures reply { result.reply ≡ reply }
    ensures effects { result.effects ≡ effects.list }
{
    Entry {
        reply,
        effects: Listed::from_vec(effects.into_vec()),
    }
}

/// The entry of what became of a datagram, and of what that caused.
pub fn entry_of(alloc: Global, step: Step<Taken>) -> Result<Entry, Memory>
    ensures reply { IfOk result (λ entry. entry.reply ≡ Reply.Arrived (link_word step.reply.link) (map item_word step.reply.items)) }
    ensures effects { IfOk result (λ entry. entry.effects ≡ step.effects.list) }
{
    let words = Vec::with_capacity(alloc, step.reply.items.as_slice().len())?;
    Ok(entry_in(words, step))
}

/// The same in an empty vector with room for its words. It takes no memory.
pub fn entry_in(words: Vec<ItemWord>, step: Step<Taken>) -> Entry
    requires empty { words.items ≡ [] }
    requires room { length step.reply.items ≤ vec_capacity words }
    ensures reply { result.reply ≡ Reply.Arrived (link_word step.reply.link) (map item_word step.reply.items) }
    ensures effects { result.effects ≡ step.effects.list }
{
    let Step {
        reply: Taken { link, items },
        effects,
    } = step;
    let items = item_words(words, items.as_slice());
    told(
        Reply::Arrived {
            link: link_word(link),
            items,
        },
        effects,
    )
}

/// The entry of a craft whose signer is spent. It takes no memory.
pub fn spent(alloc: Global, index: u64) -> Entry
    ensures reply { result.reply ≡ Reply.Spent index }
    ensures effects { result.effects ≡ [] }
{
    quiet(alloc, Reply::Spent { index })
}
