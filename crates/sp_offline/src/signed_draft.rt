// The two lines of a signed topology.
ghost use Rattle.std.specs.Prelude.{◌≡◌, ◌++◌, ◌<◌, IfOk, OnOk};
ghost use Rattle.sp_hss.specs.KeyTree.{public_key, signature, total};
ghost use Rattle.sp_offline.specs.SignedKeys.{IsGoodDraft};
ghost use Rattle.sp_offline.specs.SignedDrafts.{admin_key, hex_line, signed_text};
ghost use Rattle.sp_sign.specs.Heights.{param_of};

use crate::draft_document::document_of;
use sp_base::{Bytes, Listed, Memory};
use sp_config::Draft;
use sp_hss::Signer;
use sp_sign::param_of;
use std::alloc::Global;

/// An administrator's signature and key.
#[derive(Drop)]
struct Signature {
    bytes: Vec<u8>,
    key: [u8; 60],
}

/// The document of a draft with its signature, and the administrator's key, a line each.
#[tactic(auto, unfolding(crate::specs::SignedDrafts::signed_text))]
pub fn signed_text(alloc: Global, draft: &Draft) -> Result<Bytes, Memory>
    requires { IsGoodDraft draft.now }
    ensures { IfOk result (λ out. out ≡ signed_text draft.now) }
{
    let mut signed = document_of(alloc, draft)?.into_vec();
    let signature = signature_of(alloc, draft, signed.as_slice())?;
    signed.extend_from_slice(signature.bytes.as_slice())?;
    let mut out = Vec::new(alloc);
    push_line(alloc, &mut out, signed.as_slice())?;
    push_line(alloc, &mut out, signature.key.as_slice())?;
    Ok(Listed::from_vec(out))
}

/// The administrator's signature of a document with the draft's index, and the administrator's key.
fn signature_of(alloc: Global, draft: &Draft, document: &[u8]) -> Result<Signature, Memory>
    requires { draft.now.admin_index < total (param_of draft.now.height) }
    ensures bytes { IfOk result (λ s. s.bytes.items ≡ signature (param_of draft.now.height) draft.now.admin_seed draft.now.admin_index document.now) }
    ensures key { IfOk result (λ s. s.key ≡ admin_key draft.now) }
{
    let index = draft.admin_index;
    let made = Signer::make(
        alloc,
        param_of(draft.height),
        draft.admin_seed,
        index,
        index + 1,
    );
    let Ok(mut signer) = made else {
        return Err(Memory);
    };
    let mut bytes = vec![in alloc; 0u8; signer.signature_len()]?;
    let Ok(()) = signer.sign(document, bytes.as_mut_slice()) else {
        unreachable!();
    };
    Ok(Signature {
        bytes,
        key: signer.public(),
    })
}

/// Appends bytes in hexadecimal, and a newline.
fn push_line(alloc: Global, out: &mut Vec<u8>, bytes: &[u8]) -> Result<(), Memory>
    ensures { OnOk result (out.new.items ≡ out.old.items ++ hex_line bytes.now) }
{
    let digits = hex::encode(alloc, bytes)?;
    out.extend_from_slice(digits.as_bytes())?;
    out.push(b'\n')?;
    Ok(())
}
