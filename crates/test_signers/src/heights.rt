// A seed has one height for ever: at two heights the same one-time key signs two messages. And the upper tree of RFC 8554.
use hex::FromHex;
use sp_hss::{LmsParam, Signer};
use sp_lms::{LmsKey, sig_len};
use sp_ots::{OtsParam, candidate};
use std::alloc::Global;
use std::test::Fail;

/// The key of the one-time signature of the lower tree's key in the first signature of a signer of this height, with a seed of zeros.
fn first_upper_leaf(alloc: Global, height: LmsParam) -> Result<[u8; 32], Fail> {
    let mut signer = Signer::make(alloc, height, [0; 32], 0, 1)?;
    let mut signature = vec![in alloc; 0; signer.signature_len()]?;
    signer.sign(b"hi", &mut signature)?;
    let public = signer.public();
    let mut id = [0u8; 16];
    id.copy_from_slice(&public[12..28]);
    let place = sig_len(height, OtsParam::W4).saturating_add(4);
    let lower_key = signature
        .get(place..place.saturating_add(56))
        .unwrap_or(b"");
    let one_time = signature.get(8..2188).unwrap_or(b"");
    match candidate(OtsParam::W4, &id, 0, lower_key, one_time) {
        Ok(key) => Ok(key),
        Err(_) => Ok([0; 32]),
    }
}

#[test]
fn a_seed_at_two_heights_signs_two_keys_by_one_leaf(rt: HostRuntime) -> Result<(), Fail> {
    let low = first_upper_leaf(rt.alloc(), LmsParam::H5)?;
    let high = first_upper_leaf(rt.alloc(), LmsParam::H10)?;
    assert!(rt; low != [0; 32]);
    assert!(rt; low == high);
    Ok(())
}

#[test]
fn the_upper_tree_of_rfc_8554_has_its_key(rt: HostRuntime) -> Result<(), Fail> {
    let id = <[u8; 16] as FromHex>::from_hex("d08fabd4a2091ff0a8cb4ed834e74534")?;
    let seed = <[u8; 32] as FromHex>::from_hex(
        "558b8966c48ae9cb898b423c83443aae014a72f1b1ab5cc85cf1d892903b5439",
    )?;
    let root = <[u8; 32] as FromHex>::from_hex(
        "32a58885cd9ba0431235466bff9651c6c92124404d45fa53cf161c28f1ad5a8e",
    )?;
    let key = LmsKey::make(rt.alloc(), LmsParam::H10, OtsParam::W4, id, seed)?;
    let public = key.public();
    assert_eq!(rt; &public[24..], root.as_slice());
    Ok(())
}
