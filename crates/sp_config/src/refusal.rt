// The line that refuses a configuration or a draft: its kind, and the key or the inner kind.
ghost use Rattle.std.specs.Prelude.{◌≡◌, ◌++◌, IfOk, OnOk};
ghost use Rattle.sp_config.specs.RefusedLines.{fault_word, refused_line, refused_words, too_big_line};

use crate::ConfigRefused;
use sp_base::{Bytes, Listed, Memory};
use sp_topology::TopologyRefused;
use std::alloc::Global;

/// The line `refused 0 TooBig`.
pub fn too_big_line(alloc: Global) -> Result<Bytes, Memory>
    ensures { IfOk result (λ line. line ≡ too_big_line) }
{
    Bytes::copy(alloc, b"refused 0 TooBig\n")
}

/// The line `refused 0 KIND`, with the key or the inner kind.
#[tactic(auto, unfolding(crate::specs::RefusedLines::refused_line))]
pub fn refused_line(alloc: Global, refused: &ConfigRefused) -> Result<Bytes, Memory>
    ensures { IfOk result (λ line. line ≡ refused_line refused.now) }
{
    let mut out = Vec::from_slice(alloc, b"refused 0 ")?;
    push_words(&mut out, refused)?;
    out.push(b'\n')?;
    Ok(Listed::from_vec(out))
}

/// Appends the words of a refusal.
fn push_words(out: &mut Vec<u8>, refused: &ConfigRefused) -> Result<(), Memory>
    ensures { OnOk result (out.new.items ≡ out.old.items ++ refused_words refused.now) }
{
    match refused {
        ConfigRefused::Toml => push_pair(out, b"Toml", b""),
        ConfigRefused::Unknown(key) => push_pair(out, b"Unknown ", key.as_slice()),
        ConfigRefused::Missing(key) => push_pair(out, b"Missing ", key.as_slice()),
        ConfigRefused::Range(key) => push_pair(out, b"Range ", key.as_slice()),
        ConfigRefused::Topology(fault) => {
            push_pair(out, b"Topology ", fault_word(*fault).as_bytes())
        }
        ConfigRefused::Memory => Ok(()),
    }
}

fn push_pair(out: &mut Vec<u8>, first: &[u8], second: &[u8]) -> Result<(), Memory>
    ensures { OnOk result (out.new.items ≡ out.old.items ++ (first.now ++ second.now)) }
{
    out.extend_from_slice(first)?;
    out.extend_from_slice(second)?;
    Ok(())
}

/// The word of a fault of a topology.
pub fn fault_word(fault: TopologyRefused) -> &'static str
    ensures { result.now ≡ fault_word fault }
{
    match fault {
        TopologyRefused::Short(_) => "Short",
        TopologyRefused::Magic => "Magic",
        TopologyRefused::Format => "Format",
        TopologyRefused::Height => "Height",
        TopologyRefused::TooFew => "TooFew",
        TopologyRefused::TooMany => "TooMany",
        TopologyRefused::Order => "Order",
        TopologyRefused::Twice => "Twice",
        TopologyRefused::Key => "Key",
        TopologyRefused::Loop => "Loop",
        TopologyRefused::Unknown => "Unknown",
        TopologyRefused::Weight => "Weight",
        TopologyRefused::Memory => "Memory",
    }
}
