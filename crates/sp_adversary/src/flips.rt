// A frame of which one bit was changed on its way.
ghost use Rattle.std.specs.Prelude.{◌≡◌, ◌≤◌, IfOk, length};
ghost use Rattle.sp_runs.specs.Inputs.{flipped};

use sp_base::{Bytes, Memory};
use std::alloc::Global;

/// The frame with this bit changed, 0 the least, of the byte that stands so far from the end, 1 the last. Only want of memory refuses.
pub fn flipped(alloc: Global, frame: &[u8], back: u8, bit: u8) -> Result<Bytes, Memory>
    requires some { 1 ≤ back }
    requires within { back ≤ length frame.now }
    requires bit { bit ≤ 7 }
    ensures { IfOk result (λ bytes. bytes ≡ flipped back bit frame.now) }
{
    let mut bytes = Bytes::copy(alloc, frame)?;
    let at = frame.len() - usize::from(back);
    bytes.as_mut_slice()[at] ^= 1 << bit;
    Ok(bytes)
}
