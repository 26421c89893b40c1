// What the text of a configuration comes to.
ghost use Rattle.std.specs.Prelude.{◌≡◌, ◌≢◌, ◌++◌, IfErr, IfOk, OnOk};
ghost use Rattle.sp_service.specs.Configured.{ComesTo, SaysConfig, misfit_line, misfit_word};

use crate::fitting::{Fitted, judge};
use crate::refused::SetupRefused;
use sp_base::{Bytes, Listed, Memory};
use sp_config::{Config, ConfigRefused, fault_word, read_config, refused_line};
use std::alloc::Global;
use std::str;

/// What the text of a configuration comes to.
#[derive(Drop)]
pub enum Configured {
    /// The configuration, and what it fits.
    Fits(Config, Fitted),
    /// The line that refuses it.
    Refused(Bytes),
}

/// What the text of a configuration comes to. The first fault of the text stands before the judgements on what it says.
pub fn configure(alloc: Global, text: &[u8]) -> Result<Configured, Memory>
    ensures { IfOk result (ComesTo text.now) }
{
    let config = match config_in(alloc, text) {
        Ok(config) => config,
        Err(ConfigRefused::Memory) => return Err(Memory),
        Err(refused) => return Ok(Configured::Refused(refused_line(alloc, &refused)?)),
    };
    match judge(alloc, &config) {
        Ok(fitted) => Ok(Configured::Fits(config, fitted)),
        Err(SetupRefused::Memory) => Err(Memory),
        Err(refused) => Ok(Configured::Refused(misfit_line(alloc, refused)?)),
    }
}

/// The configuration that a text says. Bytes that are no UTF-8 are no TOML.
fn config_in(alloc: Global, text: &[u8]) -> Result<Config, ConfigRefused>
    ensures ok { IfOk result (λ config. SaysConfig text.now (Ok config)) }
    ensures err { IfErr result (λ refused. refused ≢ ConfigRefused.Memory → SaysConfig text.now (Err refused)) }
{
    match str::from_utf8(text) {
        Ok(text) => read_config(alloc, text),
        Err(_) => Err(ConfigRefused::Toml),
    }
}

/// The line `refused 0 Topology KIND`.
#[tactic(auto, unfolding(crate::specs::Configured::misfit_line))]
fn misfit_line(alloc: Global, refused: SetupRefused) -> Result<Bytes, Memory>
    ensures { IfOk result (λ line. line ≡ misfit_line refused) }
{
    let mut out = Vec::from_slice(alloc, b"refused 0 Topology ")?;
    out.extend_from_slice(misfit_word(refused).as_bytes())?;
    out.push(b'\n')?;
    Ok(Listed::from_vec(out))
}

/// The word of a judgement.
fn misfit_word(refused: SetupRefused) -> &'static str
    ensures { result.now ≡ misfit_word refused }
{
    match refused {
        SetupRefused::Document(fault) => fault_word(fault),
        SetupRefused::Signature => "Signature",
        SetupRefused::Me => "Me",
        SetupRefused::Key => "Key",
        SetupRefused::Peer => "Peer",
        SetupRefused::Memory => "",
    }
}
