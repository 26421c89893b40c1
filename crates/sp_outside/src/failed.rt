// The one answer of an outside call that didn't do its work.
use thiserror::Error;

/// The outside failed in this call, and its object counted that.
#[derive(Clone, Copy, Debug, PartialEq, Eq, Error)]
#[error("the outside failed")]
pub struct Failed;
