// A signer of two levels, its last signature, and a verifier of its key.
use crate::tree::SEED;
use sp_hss::{HssRefused, LmsParam, Signer, Verifier, verify};
use sp_lms::sig_len;
use sp_ots::OtsParam;
use std::alloc::Global;

#[derive(Drop)]
pub struct Levels {
    height: LmsParam,
    signer: Signer,
    signature: Vec<u8>,
    public: [u8; 60],
    verifier: Verifier,
}

impl Levels {
    /// A signer that may use every index.
    pub fn make(alloc: Global, height: LmsParam) -> Result<Levels, HssRefused> {
        let mut signer = Signer::make(alloc, height, SEED, 0, 0)?;
        let total = signer.total();
        signer.extend(total);
        let Ok(signature) = vec![in alloc; 0u8; signer.signature_len()] else {
            return Err(HssRefused::Memory);
        };
        let public = signer.public();
        let verifier = Verifier::make(alloc, &public)?;
        Ok(Levels {
            height,
            signer,
            signature,
            public,
            verifier,
        })
    }

    pub fn public(&self) -> &[u8] {
        &self.public
    }

    pub fn signature(&self) -> &[u8] {
        &self.signature
    }

    pub fn height(&self) -> LmsParam {
        self.height
    }

    /// The index of the next signature.
    pub fn index(&self) -> u64 {
        self.signer.index()
    }

    /// The id of the upper tree.
    pub fn upper_id(&self) -> [u8; 16] {
        piece(&self.public, 4 + 8)
    }

    /// The randomizer of the upper tree's signature.
    pub fn upper_randomizer(&self) -> [u8; 32] {
        piece(&self.signature, 4 + 8)
    }

    /// The key that the upper tree signs.
    pub fn lower_key(&self) -> [u8; 56] {
        piece(&self.signature, self.lower_place())
    }

    pub fn lower_id(&self) -> [u8; 16] {
        piece(&self.signature, self.lower_place().saturating_add(8))
    }

    /// The randomizer of the lower tree's signature.
    pub fn lower_randomizer(&self) -> [u8; 32] {
        piece(&self.signature, self.lower_place().saturating_add(56 + 8))
    }

    /// Where the lower tree's key stands in a signature.
    fn lower_place(&self) -> usize {
        sig_len(self.height, OtsParam::W4).saturating_add(4)
    }

    /// Signs the message with the next index, if there is one.
    pub fn sign(&mut self, message: &[u8]) {
        if self.signature.len() == self.signer.signature_len() {
            let _ = self.signer.sign(message, &mut self.signature);
        }
    }

    /// Checks the last signature, and remembers its front where it is valid.
    pub fn verify_known(&mut self, message: &[u8]) -> bool {
        self.verifier.verify(message, &self.signature)
    }

    pub fn verify(&self, message: &[u8]) -> bool {
        verify(&self.public, message, &self.signature)
    }
}

/// The bytes from a place on, and zeros where there are none.
pub fn piece<const N: usize>(bytes: &[u8], place: usize) -> [u8; N] {
    let mut piece = [0u8; N];
    for (byte, from) in piece.iter_mut().zip(bytes.iter().skip(place)) {
        *byte = *from;
    }
    piece
}
