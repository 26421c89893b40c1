// Numbers in strings of bytes (RFC 8554, section 3.1).
ghost use Rattle.std.specs.Prelude.{◌≡◌, ◌+◌, ◌≤◌, length, slice_range};
ghost use Rattle.sp_lms.specs.Numbers.{str_to_u32};

/// The number of the four bytes from a place on, high byte first: strTou32 (RFC 8554, section 3.1).
#[tactic(auto, unfolding(crate::specs::Numbers::str_to_u32))]
pub fn u32_at(bytes: &[u8], place: usize) -> u32
    requires { place + 4 ≤ length bytes.now }
    ensures { result ≡ str_to_u32 (slice_range bytes.now place (place + 4)) }
{
    let mut four = [0u8; 4];
    four.copy_from_slice(&bytes[place..place + 4]);
    u32::from_be_bytes(four)
}
