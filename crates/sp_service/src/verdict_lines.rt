// The lines that tell what a verification came to.
ghost use Rattle.std.specs.Prelude.{◌≡◌, IfOk};
ghost use Rattle.sp_service.specs.Verdicts.{form_line, mismatch_line, verified_line};

use sp_base::{Bytes, Memory};
use sp_lines::{push_field, push_hex_field, push_name_field};
use sp_recording::Digest;
use std::alloc::Global;

/// The line `verified N`.
pub fn verified_line(alloc: Global, count: u32) -> Result<Bytes, Memory>
    ensures { IfOk result (λ line. line ≡ verified_line count) }
{
    let mut line = String::new(alloc);
    line.push_str("verified")?;
    push_field(&mut line, u64::from(count))?;
    line.push_str("\n")?;
    Ok(Bytes::from_vec(line.into_bytes()))
}

/// The line `mismatch LINE RECORDED COMPUTED`.
pub fn mismatch_line(
    alloc: Global,
    number: u32,
    recorded: &Digest,
    computed: &Digest,
) -> Result<Bytes, Memory>
    ensures { IfOk result (λ line. line ≡ mismatch_line number recorded.now computed.now) }
{
    let mut line = String::new(alloc);
    line.push_str("mismatch")?;
    push_field(&mut line, u64::from(number))?;
    push_hex_field(&mut line, recorded.0.as_slice())?;
    push_hex_field(&mut line, computed.0.as_slice())?;
    line.push_str("\n")?;
    Ok(Bytes::from_vec(line.into_bytes()))
}

/// The line `refused LINE Form`.
pub fn form_line(alloc: Global, number: u32) -> Result<Bytes, Memory>
    ensures { IfOk result (λ line. line ≡ form_line number) }
{
    let mut line = String::new(alloc);
    line.push_str("refused")?;
    push_field(&mut line, u64::from(number))?;
    push_name_field(&mut line, "Form")?;
    line.push_str("\n")?;
    Ok(Bytes::from_vec(line.into_bytes()))
}
