// Nodes in a word, with commas between them.
ghost use Rattle.std.specs.Prelude.{◌≡◌, ◌≤◌, ◌==◌, IfOk, length, map};
ghost use Rattle.std.specs.List.{slice_split};
ghost use Rattle.sp_base.specs.Finds.{Finds};
ghost use Rattle.sp_words.specs.AuditLines.{IsPathOf};

use sp_base::{Memory, NodeId, push};
use sp_text::node_in;
use std::alloc::Global;

/// The nodes of a word as `1,2,3`, one at least. None exactly where the word is of none.
pub fn path_of(alloc: Global, word: &[u8]) -> Result<Option<Vec<NodeId>>, Memory>
    ensures { IfOk result (Finds (λ path. IsPathOf word.now path.items)) }
{
    let pieces = split_at_commas(alloc, word)?;
    let mut path = Vec::new(alloc);
    'pieces: for place in 0..pieces.len() {
        match node_in(pieces[place], 0, u8::MAX) {
            Some(id) => push(&mut path, id)?,
            None => return Ok(None),
        }
    }
    Ok(Some(path))
}

/// What stands between the commas of a word.
fn split_at_commas<'a>(alloc: Global, word: &'a [u8]) -> Result<Vec<&'a [u8]>, Memory>
    ensures { IfOk result (λ pieces. map (λ w. w.now) pieces.items ≡ slice_split (λ b. b == 44) word.now) }
{
    Ok(word.split(|byte| *byte == b',').collect(alloc)?)
}
