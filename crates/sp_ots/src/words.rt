// One word of each message at once, and the functions on words (FIPS 180-4, section 4.1.2).
//
// A vector holds the word of one place of all blocks, each in a lane of its own:
//
//                  lane 0     lane 1     lane 2     lane 3
//     word 0      block 0    block 1    block 2    block 3
//     word 1      block 0    block 1    block 2    block 3
//      ...
//
// So an operation on vectors is the operation of the standard on each block. A vector has no rotation of its own, so each costs three
// operations: the functions are written with as few rotations as give the same words, one within another, and Ch and Maj with as few
// operations.
ghost use Rattle.std.specs.Prelude.{◌≡◌, ◌<◌, ℕ, List, map};
ghost use Rattle.std.specs.Int.{w32, rotate_right};
ghost use Rattle.sha2.specs.Sha256.{big_sigma0, big_sigma1, ch, maj, small_sigma0, small_sigma1};

use std::simd::prelude::*;

/// How many messages are hashed at once.
pub const LANES: usize = 4;

/// A word of each block.
pub(crate) type Words = Simd<u32, LANES>;

#[inline(always)]
fn rotate_right(x: Words, by: u32) -> Words
    requires { (0 < by) × (by < 32) }
    ensures { result ≡ map (λ n. rotate_right w32 n by) x }
{
    (x >> by) | (x << (32 - by))
}

#[inline(always)]
pub(crate) fn big_sigma0(x: Words) -> Words
    ensures { result ≡ map big_sigma0 x }
{
    rotate_right(x ^ rotate_right(x ^ rotate_right(x, 9), 11), 2)
}

#[inline(always)]
pub(crate) fn big_sigma1(x: Words) -> Words
    ensures { result ≡ map big_sigma1 x }
{
    rotate_right(x ^ rotate_right(x ^ rotate_right(x, 14), 5), 6)
}

#[inline(always)]
pub(crate) fn small_sigma0(x: Words) -> Words
    ensures { result ≡ map small_sigma0 x }
{
    rotate_right(x ^ rotate_right(x, 11), 7) ^ (x >> 3)
}

#[inline(always)]
pub(crate) fn small_sigma1(x: Words) -> Words
    ensures { result ≡ map small_sigma1 x }
{
    rotate_right(x ^ rotate_right(x, 2), 17) ^ (x >> 10)
}

#[inline(always)]
pub(crate) fn ch(x: Words, y: Words, z: Words) -> Words
    ensures { (bs : List (List ℕ)) (f g h : List ℕ → ℕ) → x ≡ map f bs → y ≡ map g bs → z ≡ map h bs
        → result ≡ map (λ b. ch (f b) (g b) (h b)) bs }
{
    z ^ (x & (y ^ z))
}

#[inline(always)]
pub(crate) fn maj(x: Words, y: Words, z: Words) -> Words
    ensures { (bs : List (List ℕ)) (f g h : List ℕ → ℕ) → x ≡ map f bs → y ≡ map g bs → z ≡ map h bs
        → result ≡ map (λ b. maj (f b) (g b) (h b)) bs }
{
    y ^ ((x ^ y) & (y ^ z))
}
