//! The messages of the overlay: what they hold, the one way in which each is spelled in bytes, and what they cause.
#![tactic(auto)]

mod body;
mod effect;
mod encoding;
mod kept;
mod laws;
mod mask;
mod read;
mod refused;

pub use body::{
    Ack, Body, BodyRef, Epoch, Kack, Krel, KrelRef, Prio, PrioRef, Rel, RelRef, WeightBody, signer,
};
pub use effect::{Effect, Effects, Why};
pub use encoding::{encode, encode_in, encoded_len, push_body};
pub use kept::{Kept, keep};
pub use laws::a_body_has_one_spelling;
pub use mask::{Mask, mask_has};
pub use refused::{Field, MsgRefused, SendRefused};
