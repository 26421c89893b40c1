// Signers of seeds and indexes that rows name, and the topology of three nodes that another program made.
use hex::FromHex;
use sp_hss::{LmsParam, Signer};
use std::alloc::Global;
use std::test::Fail;

/// The topology of three nodes in a line, whose trees have height 5.
pub(crate) const DOCUMENT: &str =
    "4d544d570100000001050301000000020000000500000003a35a52528a685b19928b81c16c10137fcafba0f182baa295984002084ebde385b25cf54e9f5c54fbe1ca2893\
a24acc11020000000200000005000000039f7f0f08d24e86a12c3d3f3b44e67746a23dbf0fb23145a5d2970f226bd57ac8a7061fa3d964b8177d7a0f0eab1277ee03000000\
020000000500000003de8970db65bfd18ecd3e0055c8e92befb89861b14c3d2c33b39f8052642e2215b75e752af05c2cdd965152858b2d41bd000201020000000a02030000\
000a";

/// The seed of a node of that topology; 0 is the administrator.
pub(crate) fn seed_of(node: u8) -> Result<[u8; 32], Fail> {
    let digits = match node {
        0 => "8d5f8aeeb64e3ce20b537d04c486407eaf489646617cfcf493e76f5b794fa080",
        1 => "67489049382084d95c0b6666abd27a397071f0380f078ede12ca5262c5f31ebc",
        2 => "a7830c97485dedee2731bfafa824bdf8014e1948ad5d6ada0a4dcc0532c41141",
        _ => "58d956ec4f9276bfc44968e66a9f531403f7e1e3dccb3ec3c896982a8096a45b",
    };
    Ok(<[u8; 32] as FromHex>::from_hex(digits)?)
}

/// A signer of height 5 for the indexes from one up to, and not with, another.
pub(crate) fn low_signer(
    alloc: Global,
    seed: [u8; 32],
    from: u64,
    upto: u64,
) -> Result<Signer, Fail> {
    if from > upto || upto > 1024 {
        return Err("no such indexes".into());
    }
    Ok(Signer::make(alloc, LmsParam::H5, seed, from, upto)?)
}

/// The same of height 10.
pub(crate) fn high_signer(
    alloc: Global,
    seed: [u8; 32],
    from: u64,
    upto: u64,
) -> Result<Signer, Fail> {
    if from > upto || upto > 1_048_576 {
        return Err("no such indexes".into());
    }
    Ok(Signer::make(alloc, LmsParam::H10, seed, from, upto)?)
}

/// The next signature of a message.
pub(crate) fn next(alloc: Global, signer: &mut Signer, message: &[u8]) -> Result<Vec<u8>, Fail> {
    let mut signature = vec![in alloc; 0; signer.signature_len()]?;
    signer.sign(message, &mut signature)?;
    Ok(signature)
}
