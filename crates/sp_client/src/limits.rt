// The bounds of the protocol of clients, each with its name.

/// The greatest number of ports that have a session.
pub const MAX_SESSIONS: usize = 8;

/// The longest request, in bytes.
pub const MAX_REQUEST_BYTES: usize = 4_096;

/// The greatest number of a request. Numbers begin at 1.
pub const MAX_REQUEST_NUMBER: u64 = 0x7fff_ffff_ffff_ffff;

/// The greatest number of paths that a message may ask for.
pub const MAX_PATHS: u8 = 8;

/// No reply has more bytes: a number, a word, two numbers, and a payload in hexadecimal.
pub const MAX_REPLY_BYTES: usize = 20 + 13 + 2 * 21 + 1 + 2_048;
