// Why an auditor gives no good answer.
use sp_base::Memory;
use thiserror::Error;

/// Why a run isn't counted or isn't good.
#[derive(Clone, Copy, Debug, PartialEq, Eq, Error)]
pub enum AuditRefused {
    /// The nodes aren't a path of distinct correct nodes, each joined to the next.
    #[error("this is no path of correct nodes")]
    NotPath,
    /// The event of this number, counted from 1, is the first that breaks a promise.
    #[error("event {event} breaks a promise")]
    Broken { event: u32 },
    /// No memory was left for the lists of the audit.
    #[error("no memory is left")]
    Memory,
}

impl From<Memory> for AuditRefused {
    ghost use Rattle.std.specs.Prelude.{◌≡◌};
    ghost use Rattle.sp_audit.specs.declared.refused.AuditRefused.TheVariants.{Memory as no_memory};

    ghost from_gives = { λ _ e. e ≡ no_memory };

    fn from(_: Memory) -> Self {
        AuditRefused::Memory
    }
}
