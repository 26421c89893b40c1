// A recording, verified: its lines are asked of a node again.
ghost use Rattle.std.specs.Prelude.{◌≡◌, ◌≤◌, ◌<◌, ◌+◌, ◌↔◌, IfErr, IfOk, IsTrue, Some, length, option_map, slice_get};
ghost use Rattle.sp_base.specs.declared.limits.TheConstants.{MAX_INPUT_BYTES};
ghost use Rattle.sp_recording.specs.Reading.{lines_in};
ghost use Rattle.sp_service_turns.specs.Compared.{AgreesWhole, Answers, IsCompared, IsJudged, IsOfDigests, LinesErr, VerifyErr, counted};
ghost use Rattle.sp_service_turns.specs.Verified.{Agrees, asked, digest_in};

use crate::compared::{Compared, LinesRefused, VerifyRefused};
use crate::node::Core;
use crate::note::told;
use sp_base::{Bytes, Memory};
use sp_recording::{Digest, Ending, Line, Reading};
use std::alloc::Global;

/// What a node answers to a line. None where a line has no digest.
fn answer<N: Core>(alloc: Global, node: &mut N, line: &Line) -> Result<Option<Bytes>, Memory>
    ensures { IfOk result (λ answer. Answers N.steps line.now (asked line.now) node.old answer node.new) }
{
    match line {
        Line::Reserve { upto } => {
            node.reserve(*upto);
            Ok(None)
        }
        Line::Tick { now, .. } => Ok(Some(node.tick(alloc, *now)?)),
        Line::Overlay {
            node: from,
            bytes,
            ..
        } => Ok(Some(node.datagram(alloc, *from, bytes.as_slice())?)),
        Line::Stray { .. } => Ok(None),
        Line::Client { port, bytes, .. } => {
            Ok(Some(node.request(alloc, *port, bytes.as_slice())?))
        }
        Line::Poll { node: to, .. } => Ok(Some(node.poll(alloc, *to)?)),
    }
}

/// The digest of a line.
fn digest_in(line: &Line) -> Option<Digest>
    ensures { result ≡ option_map digest_in (asked line.now) }
{
    match line {
        Line::Reserve { .. } => None,
        Line::Tick { digest, .. } => Some(*digest),
        Line::Overlay { digest, .. } => Some(*digest),
        Line::Stray { .. } => None,
        Line::Client { digest, .. } => Some(*digest),
        Line::Poll { digest, .. } => Some(*digest),
    }
}

fn is_same(a: &Digest, b: &Digest) -> bool
    ensures { IsTrue result ↔ (a.now ≡ b.now) }
{
    a == b
}

/// The digest that is recorded against that of the answer.
fn compared(recorded: Option<Digest>, answer: &Option<Bytes>) -> Compared
    ensures { IsCompared recorded answer.now result }
{
    match (recorded, answer) {
        (Some(recorded), Some(answer)) => compared_digests(recorded, told(answer.as_slice())),
        _ => Compared::Silent,
    }
}

fn compared_digests(recorded: Digest, computed: Digest) -> Compared
    ensures { IsOfDigests recorded computed result }
{
    if is_same(&recorded, &computed) {
        Compared::Same
    } else {
        Compared::Other { recorded, computed }
    }
}

/// How a line comes out at a node.
fn judge<N: Core>(alloc: Global, node: &mut N, line: &Line) -> Result<Compared, Memory>
    ensures { IfOk result (λ judged. IsJudged N.steps line.now (asked line.now) node.old judged node.new) }
{
    let answer = answer(alloc, node, line)?;
    Ok(compared(digest_in(line), &answer))
}

fn line_at(lines: &[Line], place: usize) -> &Line
    requires { place < length lines.now }
    ensures { slice_get lines.now place ≡ Some result.now }
{
    &lines[place]
}

/// How many digests of the lines are those of the node. `Differs` at the first that isn't.
fn verify_lines<N: Core>(alloc: Global, node: &mut N, lines: &[Line]) -> Result<u32, LinesRefused>
    requires { length lines.now ≤ MAX_INPUT_BYTES }
    ensures agrees { IfOk result (λ count. Agrees N.steps node.old lines.now node.new count) }
    ensures differs { IfErr result (LinesErr N.steps node.old lines.now) }
{
    let mut count = 0u32;
    'lines: for place in 0..lines.len() {
        let Ok(judged) = judge(alloc, node, line_at(lines, place)) else {
            return Err(LinesRefused::Memory);
        };
        if let Compared::Other { recorded, computed } = judged {
            return Err(LinesRefused::Differs {
                place: place as u32,
                recorded,
                computed,
            });
        }
        count += counted(judged);
    }
    Ok(count)
}

/// 1 where the digests are one.
fn counted(judged: Compared) -> u32
    ensures count { result ≡ counted judged }
    ensures one { result ≤ 1 }
{
    match judged {
        Compared::Same => 1,
        _ => 0,
    }
}

/// Verifies what was read of a recording, before which so many lines stand, by a node that is as it was at the daemon's start. Gives how
/// many digests agree. `Mismatch` at the first that doesn't, where no bad line stands before it; `Form` at the first bad line, where
/// each digest before it agrees. Lines count from the first of the input.
pub fn verify<N: Core>(
    alloc: Global,
    node: &mut N,
    before: u32,
    reading: &Reading,
) -> Result<u32, VerifyRefused>
    requires { before + length (lines_in reading.now.stage) ≤ MAX_INPUT_BYTES }
    ensures agrees { IfOk result (λ count. AgreesWhole N.steps node.old reading.now node.new count) }
    ensures refused { IfErr result (VerifyErr N.steps node.old before reading.now) }
{
    match verify_lines(alloc, node, reading.stage.lines()) {
        Ok(count) => match reading.ending {
            Ending::Whole => Ok(count),
            Ending::Form { line } => Err(VerifyRefused::Form { line }),
        },
        Err(
            LinesRefused::Differs {
                place,
                recorded,
                computed,
            },
        ) => Err(VerifyRefused::Mismatch {
            line: before + 2 + place,
            recorded,
            computed,
        }),
        Err(LinesRefused::Memory) => Err(VerifyRefused::Memory),
    }
}
