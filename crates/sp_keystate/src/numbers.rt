// The numbers behind a slot's gate, and their bytes.
ghost use Rattle.std.specs.Prelude.{◌≡◌, length};
ghost use Rattle.sp_keystate.specs.Slots.{bytes_in, numbers_in};

use byteorder::{BigEndian, ByteOrder};

/// How many bytes the numbers of a slot have.
pub const NUMBERS_BYTES: usize = 24;

/// What a slot says: how many changes led to it, below which bound indexes are reserved, and how often the daemon was started.
#[derive(Clone, Copy, Debug, PartialEq, Eq)]
pub struct Numbers {
    pub serial: u64,
    pub bound: u64,
    pub boot: u64,
}

impl Numbers {
    #[tactic(auto, unfolding(crate::specs::Slots::bytes_in))]
    pub fn bytes(&self) -> [u8; NUMBERS_BYTES]
        ensures { result ≡ bytes_in self.now }
    {
        let mut bytes = [0; NUMBERS_BYTES];
        BigEndian::write_u64(&mut bytes, self.serial);
        BigEndian::write_u64(&mut bytes[8..], self.bound);
        BigEndian::write_u64(&mut bytes[16..], self.boot);
        bytes
    }

    #[tactic(auto, unfolding(crate::specs::Slots::numbers_in))]
    pub fn of(bytes: &[u8]) -> Self
        requires { length bytes.now ≡ NUMBERS_BYTES }
        ensures { result ≡ numbers_in bytes.now }
    {
        Numbers {
            serial: BigEndian::read_u64(bytes),
            bound: BigEndian::read_u64(&bytes[8..]),
            boot: BigEndian::read_u64(&bytes[16..]),
        }
    }
}
