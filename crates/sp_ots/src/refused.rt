// Why a signature gives no key.
use thiserror::Error;

/// Why bytes can't be a signature of a parameter set, whatever the message and the key.
#[derive(Clone, Copy, Debug, PartialEq, Eq, Error)]
pub enum OtsRefused {
    /// There are not as many bytes as a signature of the parameter set has.
    #[error("the signature has another length")]
    Length,
    /// The first four bytes are not the typecode of the parameter set.
    #[error("the signature has another typecode")]
    Typecode,
}
