// A schedule that is read while it comes: piece by piece, and each line once its newline is there. What is read doesn't depend on the cuts.
ghost use Rattle.std.specs.Prelude.{◌≡◌, ◌≢◌, ◌+◌, ◌≤◌, ◌∷◌, ◌++◌, [], true, false, length, take, IfNone, IfOk, IfSome, Bool, List, ℕ, vec_capacity};
ghost use Rattle.sp_base.specs.declared.limits.TheConstants.{MAX_INPUT_BYTES, MAX_LINE_BYTES};
ghost use Rattle.sp_text.specs.declared.place.At.{At};
ghost use Rattle.sp_schedule.specs.Feeds.{AreReadSoFar, IsFront, IsLeadOf, IsReadAs, IsRefusedLead, IsUpToNewline, ReadsLine, ReadsOn, TakesPiece};
ghost use Rattle.sp_schedule.specs.Feeds.{is_ready, text_of, unfed};
ghost use Rattle.sp_schedule.specs.Readings.{IsGoodStage, no_words};

use crate::lead::{Lead, follow};
use crate::reader::nothing_left;
use crate::refused::text_kind;
use crate::{Ending, Kind, Parsed, ScheduleRefused, Stage};
use sp_base::{MAX_LINE_BYTES, Memory};
use sp_text::{Line, TextRefused, first_line, words};
use std::alloc::Global;
use std::marker::Model;
use std::mem;

/// What was read of a schedule so far, and the front of its next line. The text itself isn't kept.
#[derive(Debug, Drop)]
pub struct Feed {
    stage: Stage,
    count: u32,
    waiting: Vec<u8>,
}

impl Model for Feed {
    ghost use Rattle.std.specs.Prelude.{◌+◌, ◌≤◌, vec_capacity};
    ghost use Rattle.sp_base.specs.declared.limits.TheConstants.{MAX_LINE_BYTES};
    ghost use Rattle.sp_schedule.specs.Feeds.{Fed, IsFeed};

    ghost Value = { Fed };

    ghost view = { λ f. record { stage = f.stage; count = f.count; waiting = f.waiting.items } };

    ghost invariant = { λ f. IsFeed (record { stage = f.stage; count = f.count; waiting = f.waiting.items }) × (MAX_LINE_BYTES + 1 ≤ vec_capacity f.waiting) };
}

impl Feed {
    /// Nothing came yet. It takes the memory of the longest line.
    pub fn new(alloc: Global) -> Result<Feed, Memory>
        ensures { IfOk result (λ feed. feed ≡ unfed) }
    {
        let waiting = Vec::with_capacity(alloc, MAX_LINE_BYTES + 1)?;
        Ok(Feed {
            stage: Stage::Start,
            count: 0,
            waiting,
        })
    }

    /// Whether a whole line waits, or one that is too long.
    pub fn ready(&self) -> bool
        ensures { result ≡ is_ready self.now.waiting }
    {
        match whole_line(&self.waiting) {
            Some(_) => true,
            None => self.waiting.as_slice().len() > MAX_LINE_BYTES,
        }
    }

    /// Takes the first bytes of a piece, up to and with its first newline, or until the line is too long, and gives their number.
    pub fn push(&mut self, piece: &[u8]) -> usize
        requires waiting { is_ready self.old.waiting ≡ false }
        requires size { length (text_of self.old) + length piece.now ≤ MAX_INPUT_BYTES }
        ensures piece { TakesPiece self.old piece.now result self.new }
        ensures text { text_of self.new ≡ text_of self.old ++ take result piece.now }
    {
        let room = MAX_LINE_BYTES + 1 - self.waiting.as_slice().len();
        let count = up_to_newline(&piece[..room.min(piece.len())]);
        append(&mut self.waiting, &piece[..count]);
        count
    }

    /// Reads the line that waits. A line that is refused is the first bad one, whatever follows; it still waits, and nothing has changed.
    pub fn line(&mut self, alloc: Global) -> Result<Parsed, ScheduleRefused>
        requires { is_ready self.old.waiting ≡ true }
        ensures line { ReadsLine self.old result self.new }
        ensures good_stage { IfOk result (λ parsed. IsGoodStage self.new.stage) }
    {
        let line = self.count + 1;
        let stage = mem::replace(&mut self.stage, Stage::Start);
        match lead_of(alloc, line, &self.waiting, stage) {
            Lead::To(next, parsed) => {
                put(&mut self.stage, next);
                self.count = line;
                self.waiting.clear();
                Ok(parsed)
            }
            Lead::Bad(stage, kind) => {
                put(&mut self.stage, stage);
                Err(ScheduleRefused::Bad { line, kind })
            }
            Lead::Unread(stage) => {
                put(&mut self.stage, stage);
                Err(ScheduleRefused::Memory)
            }
        }
    }

    /// What was read is the reading of its lines; and whatever follows, the whole text has a reading, which begins with it.
    pub fn reads_on(&self)
        ensures so_far { AreReadSoFar self.now }
        ensures more { (more : List ℕ) (is_cut : Bool) → ReadsOn self.now more is_cut }
    {
        let _ = &self.stage;
    }

    /// How a text ends that ends here. Where it `is_cut` there was more of it, and it is too big.
    pub fn finish(&self, is_cut: bool) -> Ending
        requires { is_ready self.now.waiting ≡ false }
        ensures { IsReadAs self.now is_cut result }
    {
        let line = self.count + 1;
        if self.waiting.as_slice().is_empty() {
            nothing_left(is_cut, &self.stage, line)
        } else {
            open_line(is_cut, line)
        }
    }
}

/// Puts a stage in its place.
fn put(place: &mut Stage, stage: Stage)
    ensures { place.new ≡ stage }
{
    *place = stage;
}

/// The line whose newline is the last of these bytes.
fn whole_line(bytes: &[u8]) -> Option<&[u8]>
    ensures found { IfSome result (λ line. bytes.now ≡ line.now ++ 10 ∷ []) }
    ensures none { IfNone result ((line : List ℕ) → bytes.now ≢ line ++ 10 ∷ []) }
{
    match bytes.split_last() {
        Some((b'\n', line)) => Some(line),
        _ => None,
    }
}

/// How many bytes of a piece end with its first newline, or else are all of it.
fn up_to_newline(piece: &[u8]) -> usize
    ensures within { result ≤ length piece.now }
    ensures newline { IsUpToNewline piece.now result }
{
    match first_line(piece) {
        Some((line, _)) => line.len() + 1,
        None => piece.len(),
    }
}

/// Appends bytes where there is room for them.
fn append(waiting: &mut Vec<u8>, bytes: &[u8])
    requires room { length waiting.old.items + length bytes.now ≤ vec_capacity waiting.old }
    ensures items { waiting.new.items ≡ waiting.old.items ++ bytes.now }
    ensures room { vec_capacity waiting.old ≤ vec_capacity waiting.new }
{
    match waiting.extend_from_slice(bytes) {
        Ok(()) => {}
        Err(_) => unreachable!(),
    }
}

/// What comes of the line of this number, which waits.
fn lead_of(alloc: Global, number: u32, waiting: &[u8], stage: Stage) -> Lead
    requires front { IsFront waiting.now }
    requires ready { is_ready waiting.now ≡ true }
    ensures { IsLeadOf number waiting.now stage result }
{
    let Some(bytes) = whole_line(waiting) else {
        return Lead::Bad(stage, Kind::LineLong);
    };
    match words(alloc, Line { number, bytes }) {
        Ok(words) => follow(alloc, stage, words.as_slice()),
        Err(refused) => refused_lead(stage, refused),
    }
}

/// What comes of a line that isn't words.
fn refused_lead(stage: Stage, refused: TextRefused) -> Lead
    ensures { IsRefusedLead stage refused result }
{
    match refused {
        TextRefused::Memory => Lead::Unread(stage),
        refused => Lead::Bad(stage, text_kind(refused)),
    }
}

/// How a text ends in this line, whose newline doesn't come.
fn open_line(is_cut: bool, line: u32) -> Ending
    ensures { (place : At) → result ≡ no_words is_cut line (TextRefused.Cut place) }
{
    if is_cut {
        Ending::Refused {
            line: 0,
            kind: Kind::TooBig,
        }
    } else {
        Ending::Refused {
            line,
            kind: Kind::Cut,
        }
    }
}
