// The digits of a hash and of its checksum, which say how far each chain goes (RFC 8554, section 4.4).
ghost use Rattle.std.specs.Prelude.{◌≡◌, ◌++◌, ◌*◌, ◌<◌, ◌≤◌, length, map, take};
ghost use Rattle.std.specs.List.{range_with_len};
ghost use Rattle.sp_ots.specs.Parameters.{width, last_step, chain_count, for_each_chain};
ghost use Rattle.sp_ots.specs.Strings.{coef, u16str};
ghost use Rattle.sp_ots.specs.Digits.{checksum, digit};

use crate::OtsParam;
use crate::param::MOST_CHAINS;

/// The digit of each chain, and zeros after them.
pub(crate) fn digits(param: OtsParam, hash: &[u8; 32]) -> [u8; MOST_CHAINS]
    ensures { take (chain_count param) result ≡ for_each_chain param (digit param hash.now) }
{
    let string = with_checksum(param, hash);
    let mut digits = [0u8; MOST_CHAINS];
    'chains: for i in 0..param.chain_count() {
        digits[i] = coef(&string, i, param);
    }
    digits
}

/// The hash and its checksum after it.
fn with_checksum(param: OtsParam, hash: &[u8; 32]) -> [u8; 34]
    ensures { result ≡ hash.now ++ u16str (checksum param hash.now) }
{
    let mut string = [0u8; 34];
    string[..32].copy_from_slice(hash);
    string[32..].copy_from_slice(&checksum(param, hash).to_be_bytes());
    string
}

/// How far the digits of a hash are from the greatest, moved left.
fn checksum(param: OtsParam, hash: &[u8; 32]) -> u16
    ensures { result ≡ checksum param hash.now }
{
    let mut distance = 0u16;
    'digits: for i in 0..8 * hash.len() / param.width() {
        distance += u16::from(param.last_step() - coef(hash, i, param));
    }
    distance << param.checksum_shift()
}

/// Digit i of a string, from the left.
fn coef(s: &[u8], i: usize, param: OtsParam) -> u8
    requires short { length s.now ≤ 34 }
    requires within { i * width param < 8 * length s.now }
    ensures value { result ≡ coef s.now i (width param) }
    ensures most { result ≤ last_step param }
{
    let width = param.width();
    let shift = 8 - (width * (i % (8 / width)) + width);
    param.last_step() & (s[i * width / 8] >> shift)
}
