// Why a signature doesn't count.
use thiserror::Error;

/// Why a signature doesn't count.
#[derive(Clone, Copy, Debug, PartialEq, Eq, Error)]
pub enum SignRefused {
    /// The message's signer isn't a node of the topology.
    #[error("the signer is no node")]
    UnknownSigner,
    /// The signature isn't valid under the signer's key.
    #[error("the signature isn't the signer's")]
    BadSignature,
}
