// What the message of an entry says. Stores hold priority messages; any other says 0.
ghost use Rattle.std.specs.Prelude.{◌≡◌};
ghost use Rattle.sp_rules.specs.Store.{expiry, priority, said, source, target};

use sp_msg::{Body, Kept};
use sp_rules::Entry;

/// The id of the source.
pub fn source(entry: &Entry) -> u8
    ensures { result ≡ source entry.now }
{
    source_of(&entry.kept)
}

/// The same of a message that comes.
pub fn source_of(kept: &Kept) -> u8
    ensures { result ≡ said (λ p. p.src.0) kept.now.body }
{
    match &kept.body {
        Body::Prio(prio) => prio.src.0,
        _ => 0,
    }
}

/// The id of the destination.
pub fn target(entry: &Entry) -> u8
    ensures { result ≡ target entry.now }
{
    match &entry.kept.body {
        Body::Prio(prio) => prio.dst.0,
        _ => 0,
    }
}

/// The priority, of which the greatest goes first.
pub fn priority(entry: &Entry) -> u8
    ensures { result ≡ priority entry.now }
{
    match &entry.kept.body {
        Body::Prio(prio) => prio.prio,
        _ => 0,
    }
}

/// The last moment at which the message counts.
pub fn expiry(entry: &Entry) -> u64
    ensures { result ≡ expiry entry.now }
{
    match &entry.kept.body {
        Body::Prio(prio) => prio.expiry,
        _ => 0,
    }
}
