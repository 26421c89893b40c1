// The words of a line: its name and its fields, and the numbers among these.
ghost use Rattle.std.specs.Prelude.{ℕ, ◌≡◌, ◌≢◌, ◌≤◌, ◌∷◌, ◌↔◌, List, map, IfNone, IfSome, IsTrue};
ghost use Rattle.std.specs.Fmt.{decimal};
ghost use Rattle.sp_base.specs.Finds.{Finds};
ghost use Rattle.sp_text.specs.Spelling.{Word};

use crate::number;
use sp_base::NodeId;

/// The words after a line's name. None exactly where the line has another name, or no word at all.
pub fn fields<'a>(name: &[u8], words: &'a [&'a [u8]]) -> Option<&'a [&'a [u8]]>
    ensures found { IfSome result (λ fields. map (λ w. w.now) words.now ≡ name.now ∷ map (λ w. w.now) fields.now) }
    ensures none { IfNone result ((fields : List Word) → map (λ w. w.now) words.now ≢ name.now ∷ fields) }
{
    let (first, fields) = words.split_first()?;
    if is_word(first, name) {
        Some(fields)
    } else {
        None
    }
}

/// Whether the word is this one.
pub fn is_word(word: &[u8], name: &[u8]) -> bool
    ensures { IsTrue result ↔ (word.now ≡ name.now) }
{
    word == name
}

/// The number of a word, from `low` to `high`.
pub fn number_in(word: &[u8], low: u64, high: u64) -> Option<u64>
    ensures { Finds (λ n. (word.now ≡ decimal n) × (low ≤ n) × (n ≤ high)) result }
{
    let n = number(word)?;
    if low <= n && n <= high { Some(n) } else { None }
}

/// Whether the word is this number.
pub fn is_number(word: &[u8], n: u64) -> bool
    ensures { IsTrue result ↔ (word.now ≡ decimal n) }
{
    number_in(word, n, n).is_some()
}

/// The node of a word, from `low` to `high`.
pub fn node_in(word: &[u8], low: u8, high: u8) -> Option<NodeId>
    ensures { Finds (λ id. (word.now ≡ decimal id.0) × (low ≤ id.0) × (id.0 ≤ high)) result }
{
    let n = number_in(word, u64::from(low), u64::from(high))?;
    Some(NodeId(n as u8))
}
