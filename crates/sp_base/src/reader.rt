// Reading from the front of borrowed bytes: numbers with their high byte first, and pieces of a length.
ghost use Rattle.std.specs.Prelude.{◌≡◌, length};
ghost use Rattle.sp_base.specs.Reading.{Takes, number_at, piece_at};

use byteorder::{BigEndian, ByteOrder};
use std::marker::Model;
use thiserror::Error;

/// Fewer bytes are left than a field needs: how many it needs, and how many are left.
#[derive(Clone, Copy, Debug, PartialEq, Eq, Error)]
#[error("{need} bytes are needed and {left} are left")]
pub struct Short {
    pub need: usize,
    pub left: usize,
}

/// The bytes that are left to read. A read that is refused takes none of them.
#[derive(Debug, Drop)]
pub struct Reader<'a> {
    bytes: &'a [u8],
}

impl<'a> Model for Reader<'a> {
    ghost use Rattle.std.specs.Prelude.{ℕ, List};

    ghost Value = { List ℕ };

    ghost view = { λ r. r.bytes.now };
}

impl<'a> Reader<'a> {
    pub fn new(bytes: &'a [u8]) -> Reader<'a>
        ensures { result ≡ bytes.now }
    {
        Reader { bytes }
    }

    /// How many bytes are left.
    pub fn left(&self) -> usize
        ensures { result ≡ length self.now }
    {
        self.bytes.len()
    }

    #[tactic(auto, unfolding(crate::specs::Reading::number_at, crate::specs::Reading::piece_at))]
    pub fn u8(&mut self) -> Result<u8, Short>
        ensures { Takes (λ x. x) result self.old self.new (number_at 1 self.old) }
    {
        let piece = self.take(1)?;
        Ok(piece[0])
    }

    #[tactic(auto, unfolding(crate::specs::Reading::number_at, crate::specs::Reading::piece_at))]
    pub fn u16(&mut self) -> Result<u16, Short>
        ensures { Takes (λ x. x) result self.old self.new (number_at 2 self.old) }
    {
        let piece = self.take(2)?;
        Ok(BigEndian::read_u16(piece))
    }

    #[tactic(auto, unfolding(crate::specs::Reading::number_at, crate::specs::Reading::piece_at))]
    pub fn u32(&mut self) -> Result<u32, Short>
        ensures { Takes (λ x. x) result self.old self.new (number_at 4 self.old) }
    {
        let piece = self.take(4)?;
        Ok(BigEndian::read_u32(piece))
    }

    #[tactic(auto, unfolding(crate::specs::Reading::number_at, crate::specs::Reading::piece_at))]
    pub fn u64(&mut self) -> Result<u64, Short>
        ensures { Takes (λ x. x) result self.old self.new (number_at 8 self.old) }
    {
        let piece = self.take(8)?;
        Ok(BigEndian::read_u64(piece))
    }

    #[tactic(auto, unfolding(crate::specs::Reading::number_at, crate::specs::Reading::piece_at))]
    pub fn u128(&mut self) -> Result<u128, Short>
        ensures { Takes (λ x. x) result self.old self.new (number_at 16 self.old) }
    {
        let piece = self.take(16)?;
        Ok(BigEndian::read_u128(piece))
    }

    /// The next `n` bytes.
    #[tactic(auto, unfolding(crate::specs::Reading::piece_at))]
    pub fn take(&mut self, n: usize) -> Result<&'a [u8], Short>
        ensures { Takes (λ x. x.now) result self.old self.new (piece_at n self.old) }
    {
        let left = self.bytes.len();
        if left < n {
            return Err(Short { need: n, left });
        }
        let (piece, rest) = self.bytes.split_at(n);
        self.bytes = rest;
        Ok(piece)
    }
}
