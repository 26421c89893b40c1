// The message schedule of all blocks (FIPS 180-4, section 6.2.2, step 1), as a ring of its last 16 words.
ghost use Rattle.std.specs.Prelude.{◌≡◌, ◌<◌, ◌≤◌, ◌+◌, ◌*◌, ◌%◌, ℕ, List, length, map, slice_index};
ghost use Rattle.sha2.specs.Sha256.{schedule, word_at};
ghost use Rattle.sp_ots.specs.Blocks.{AreWindows};

use crate::words::{LANES, Words, small_sigma0, small_sigma1};

/// Word i of each block.
#[inline(always)]
pub(crate) fn load(blocks: &[[u8; 64]; LANES], i: usize) -> Words
    requires { i < 16 }
    ensures { result ≡ map (λ b. word_at b (4 * i)) blocks.now }
{
    let mut lanes = [0u32; LANES];
    'lanes: for k in 0..LANES {
        lanes[k] = load_be(&blocks[k], 4 * i);
    }
    Words::from_array(lanes)
}

/// The word at byte i of a block, high byte first (section 5.2.1).
#[inline(always)]
fn load_be(block: &[u8], i: usize) -> u32
    requires { i + 4 ≤ length block.now }
    ensures { result ≡ word_at block.now i }
{
    u32::from_be_bytes([block[i], block[i + 1], block[i + 2], block[i + 3]])
}

/// The next word of each schedule, which goes over the word 16 before it in the ring.
#[inline(always)]
pub(crate) fn next_word<const SINGLE: bool>(w: &mut [Words; 16], place: usize) -> Words
    requires { place < 16 }
    ensures { (ms : List (List ℕ)) (block : List ℕ → List ℕ) (t : ℕ) → 16 ≤ t → t < 64 → t % 16 ≡ place → AreWindows block ms w.old t
        → (result ≡ map (λ m. slice_index (schedule (block m) 48) t) ms) × AreWindows block ms w.new (t + 1) }
{
    let word = small_sigma1(w[(place + 14) % 16])
        + w[(place + 9) % 16]
        + small_sigma0(w[(place + 1) % 16])
        + w[place];
    w[place] = word;
    word
}
