// A recording, verified by the configuration that stands before it.
ghost use Rattle.std.specs.Prelude.{◌≡◌, ◌≤◌, ◌+◌, IfOk, drop, length, map, take, ℕ};
ghost use Rattle.sp_base.specs.declared.limits.TheConstants.{MAX_INPUT_BYTES};
ghost use Rattle.sp_recording.specs.Reading.{lines_in, opening_in};
ghost use Rattle.sp_service.specs.Parts.{ComeTo, ComesFrom, TellsVerified};
ghost use Rattle.sp_service.specs.Starts.{IsOpening};
ghost use Rattle.sp_service.specs.Verdicts.{IsJudged, IsVerdict, form_line};
ghost use Rattle.sp_service.specs.Fits.{Fits, neighbours};
ghost use Rattle.sp_service.specs.NodeParts.{IsKeyOf};
ghost use Rattle.sp_topology.specs.Ranges.{IsTopology};

use crate::configured::{Configured, configure};
use crate::fitting::Fitted;
use crate::ready::total;
use crate::split::{line_count, split};
use crate::starts::{can_announce, station_at};
use crate::verdict::{Judged, Verdict};
use crate::verdict_lines::{form_line, mismatch_line, verified_line};
use sp_base::{Memory, NodeId};
use sp_config::{Config, Peer, too_big_line};
use sp_recording::{Ending, Opening, Reading, Stage, read};
use sp_service_station::Station;
use sp_service_turns::VerifyRefused;
use sp_topology::Topology;
use std::alloc::Global;

/// Verifies a recording by the configuration that stands before it, in one text: the lines of the recording are asked of the configured node
/// again, and their digests are compared with those of its answers. Lines count from the first of the text. A text that `is_cut` had more bytes
/// than may be read, and is refused for that.
pub fn verify(alloc: Global, text: &[u8], is_cut: bool) -> Result<Judged, Memory>
    requires { length text.now ≤ MAX_INPUT_BYTES }
    ensures { IfOk result (λ judged. IsJudged text.now is_cut judged.verdict judged.line) }
{
    if is_cut {
        return Ok(Judged {
            verdict: Verdict::Refused,
            line: too_big_line(alloc)?,
        });
    }
    let place = split(text);
    let (front, rest) = parts(text, place);
    match configure(alloc, front)? {
        Configured::Fits(config, fitted) => {
            verify_text(alloc, &config, fitted, line_count(front), rest)
        }
        Configured::Refused(line) => Ok(Judged {
            verdict: Verdict::Refused,
            line,
        }),
    }
}

/// The configuration and the recording of a text.
fn parts(text: &[u8], place: usize) -> (&[u8], &[u8])
    requires { place ≤ length text.now }
    ensures front { result.0.now ≡ take place text.now }
    ensures rest { result.1.now ≡ drop place text.now }
    ensures together { length result.0.now + length result.1.now ≡ length text.now }
{
    text.split_at(place)
}

/// Verifies the text of a recording, before which so many lines stand.
#[tactic(auto, using(crate::proofs::Judging::unindexed, crate::proofs::Judging::unopened, crate::proofs::Judging::may_open))]
fn verify_text(
    alloc: Global,
    config: &Config,
    fitted: Fitted,
    before: u32,
    text: &[u8],
) -> Result<Judged, Memory>
    requires fits { Fits config.now fitted.topology }
    requires topology { IsTopology fitted.topology }
    requires key { IsKeyOf config.now fitted.topology.height fitted.key }
    requires within { before + length text.now ≤ MAX_INPUT_BYTES }
    ensures { IfOk result (λ judged. IsVerdict config.now fitted.topology before text.now judged.verdict judged.line) }
{
    let near = neighbours(alloc, config, &fitted.topology)?;
    let reading = read(alloc, total(fitted.topology.height), &near, before, text)?;
    let Some(opening) = opening_in(&reading.stage) else {
        return no_first_line(alloc, &reading);
    };
    if !can_announce(&fitted.topology, opening) {
        return no_first_index(alloc, before);
    }
    verify_opened(alloc, config, fitted, opening, before, &reading)
}

/// Verifies what was read after the first line: the node starts as the line says, and is asked the others.
fn verify_opened(
    alloc: Global,
    config: &Config,
    fitted: Fitted,
    opening: Opening,
    before: u32,
    reading: &Reading,
) -> Result<Judged, Memory>
    requires fits { Fits config.now fitted.topology }
    requires topology { IsTopology fitted.topology }
    requires key { IsKeyOf config.now fitted.topology.height fitted.key }
    requires opening { IsOpening fitted.topology opening }
    requires within { before + length (lines_in reading.now.stage) ≤ MAX_INPUT_BYTES }
    ensures { IfOk result (λ judged. ComesFrom config.now fitted.topology opening before reading.now judged.verdict judged.line) }
{
    let mut station = station_at(alloc, config, fitted, opening)?;
    let judged = verify_lines(alloc, &mut station, before, reading);
    drop(station);
    judged
}

/// The ids of the neighbours, ascending.
#[tactic(auto, using(crate::proofs::Judging::near_list))]
fn neighbours(alloc: Global, config: &Config, _topology: &Topology) -> Result<Vec<NodeId>, Memory>
    requires { Fits config.now _topology.now }
    ensures { IfOk result (λ near. near.items ≡ neighbours config.now _topology.now) }
{
    let ids = ids_of(alloc, config.peers.as_slice())?;
    Ok(ids)
}

fn ids_of(alloc: Global, peers: &[Peer]) -> Result<Vec<NodeId>, Memory>
    ensures { IfOk result (λ ids. ids.items ≡ map (λ p. p.id) peers.now) }
{
    let ids = peers.iter().map(|peer| peer.id).collect(alloc)?;
    Ok(ids)
}

/// The first line of a recording, where it was read.
fn opening_in(stage: &Stage) -> Option<Opening>
    ensures { result ≡ opening_in stage.now }
{
    match stage {
        Stage::Start => None,
        Stage::Lines(opening, _, _) => Some(*opening),
        Stage::End(opening, _, _) => Some(*opening),
    }
}

/// The refusal of a text that isn't begun as a recording.
fn no_first_line(alloc: Global, reading: &Reading) -> Result<Judged, Memory>
    requires { reading.now.ending ≡ Ending.Whole → ⊥ }
    ensures verdict { IfOk result (λ judged. judged.verdict ≡ Verdict.Refused) }
    ensures line { IfOk result (λ judged. (line : ℕ) × (reading.now.ending ≡ Ending.Form line) × (judged.line ≡ form_line line)) }
{
    match reading.ending {
        Ending::Whole => unreachable!(),
        Ending::Form { line } => Ok(Judged {
            verdict: Verdict::Refused,
            line: form_line(alloc, line)?,
        }),
    }
}

/// The refusal of a recording whose first line leaves its node no index to sign its boot with.
fn no_first_index(alloc: Global, before: u32) -> Result<Judged, Memory>
    requires { before ≤ MAX_INPUT_BYTES }
    ensures verdict { IfOk result (λ judged. judged.verdict ≡ Verdict.Refused) }
    ensures line { IfOk result (λ judged. judged.line ≡ form_line (before + 1)) }
{
    Ok(Judged {
        verdict: Verdict::Refused,
        line: form_line(alloc, before + 1)?,
    })
}

/// Asks the lines of the node again.
fn verify_lines(
    alloc: Global,
    station: &mut Station,
    before: u32,
    reading: &Reading,
) -> Result<Judged, Memory>
    requires { before + length (lines_in reading.now.stage) ≤ MAX_INPUT_BYTES }
    ensures { IfOk result (λ judged. ComeTo station.old before reading.now judged.verdict judged.line) }
{
    let verified = sp_service_turns::verify(alloc, station, before, reading);
    judged(alloc, verified)
}

/// The verdict on a recording, with its line.
fn judged(alloc: Global, verified: Result<u32, VerifyRefused>) -> Result<Judged, Memory>
    ensures { IfOk result (λ judged. TellsVerified verified judged.verdict judged.line) }
{
    match verified {
        Ok(count) => Ok(Judged {
            verdict: Verdict::Verified,
            line: verified_line(alloc, count)?,
        }),
        Err(
            VerifyRefused::Mismatch {
                line,
                recorded,
                computed,
            },
        ) => Ok(Judged {
            verdict: Verdict::Mismatch,
            line: mismatch_line(alloc, line, &recorded, &computed)?,
        }),
        Err(VerifyRefused::Form { line }) => Ok(Judged {
            verdict: Verdict::Refused,
            line: form_line(alloc, line)?,
        }),
        Err(VerifyRefused::Memory) => Err(Memory),
    }
}
