// Signers of indexes that rows name, and the message that they sign.
use sp_hss::{LmsParam, Signer};
use std::alloc::Global;
use std::test::Fail;

/// The message of all signatures.
pub(crate) const MESSAGE: [u8; 15] = [2, 1, 3, 0, 0, 0, 0, 0, 0, 0, 1, 0, 2, b'h', b'i'];

/// A signer of height 5 for the indexes from one up to, and not with, another.
pub(crate) fn low_signer(
    alloc: Global,
    seed: [u8; 32],
    from: u64,
    upto: u64,
) -> Result<Signer, Fail> {
    if from > upto || upto > 1024 {
        return Err("no such indexes".into());
    }
    Ok(Signer::make(alloc, LmsParam::H5, seed, from, upto)?)
}

/// The same of height 10.
pub(crate) fn high_signer(
    alloc: Global,
    seed: [u8; 32],
    from: u64,
    upto: u64,
) -> Result<Signer, Fail> {
    if from > upto || upto > 1_048_576 {
        return Err("no such indexes".into());
    }
    Ok(Signer::make(alloc, LmsParam::H10, seed, from, upto)?)
}

/// The next signature of a message.
pub(crate) fn next(alloc: Global, signer: &mut Signer, message: &[u8]) -> Result<Vec<u8>, Fail> {
    let mut signature = vec![in alloc; 0; signer.signature_len()]?;
    signer.sign(message, &mut signature)?;
    Ok(signature)
}
