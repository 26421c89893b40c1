// The first line and the end line, read from their words. Each function answers None exactly where the line says nothing of the kind.
ghost use Rattle.std.specs.Prelude.{◌≡◌, [], ◌∷◌, codes, map};
ghost use Rattle.sp_lines.specs.Answers.{Says};
ghost use Rattle.sp_recording.specs.OuterRows.{read_closing, read_opening};

use crate::{Closing, MAX_BOOT, MAX_TURNS, Opening};
use sp_lines::{named, ranged};

/// The first line: `recording 1 BOOT INDEX BOUND`.
pub fn opening(total: u64, words: &[&[u8]]) -> Option<Opening>
    ensures { Says (λ o. o) result (read_opening total (map (λ w. w.now) words.now)) }
{
    match words {
        [name, version, boot, index, bound] if named(name, b"recording") && named(version, b"1") =>
            { opening_of(total, boot, index, bound) }
        _ => None,
    }
}

fn opening_of(total: u64, boot: &[u8], index: &[u8], bound: &[u8]) -> Option<Opening>
    ensures { Says (λ o. o) result (read_opening total (codes "recording" ∷ codes "1" ∷ boot.now ∷ index.now ∷ bound.now ∷ [])) }
{
    let Ok(boot) = ranged(boot, 1, MAX_BOOT) else {
        return None;
    };
    let Ok(index) = ranged(index, 0, total) else {
        return None;
    };
    let Ok(bound) = ranged(bound, 0, total) else {
        return None;
    };
    if index > bound {
        return None;
    }
    Some(Opening { boot, index, bound })
}

/// The end line: `end turns T lost N`.
pub fn closing(words: &[&[u8]]) -> Option<Closing>
    ensures { Says (λ c. c) result (read_closing (map (λ w. w.now) words.now)) }
{
    match words {
        [end, named_turns, turns, named_lost, lost]
            if named(end, b"end") && named(named_turns, b"turns") && named(named_lost, b"lost") => {
            closing_of(turns, lost)
        }
        _ => None,
    }
}

fn closing_of(turns: &[u8], lost: &[u8]) -> Option<Closing>
    ensures { Says (λ c. c) result (read_closing (codes "end" ∷ codes "turns" ∷ turns.now ∷ codes "lost" ∷ lost.now ∷ [])) }
{
    let Ok(turns) = ranged(turns, 1, u64::from(MAX_TURNS)) else {
        return None;
    };
    let Ok(lost) = ranged(lost, 0, u64::from(u32::MAX)) else {
        return None;
    };
    Some(Closing {
        turns: turns as u32,
        lost: lost as u32,
    })
}
