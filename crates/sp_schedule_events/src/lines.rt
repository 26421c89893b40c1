// The line of an event: its name first, and then the words behind it.
ghost use Rattle.std.specs.Prelude.{◌≡◌, ◌∷◌, find, map, option_map};
ghost use Rattle.sp_lines.specs.Answers.{Reads};
ghost use Rattle.sp_lines.specs.Cells.{same};
ghost use Rattle.sp_schedule_events.specs.EventLines.{read_event};
ghost use Rattle.sp_schedule_events.specs.Names.{line_named};

use crate::craft_line::craft;
use crate::document_line::publish;
use crate::event_line::{prio, rel, take, takep, tick, weight};
use crate::frame_line::{flip, inject, pass, poll};
use crate::life_line::{start, stop};
use crate::line_of::{LineName, LineOf};
use crate::path_line::{krel, ktake};
use crate::{Event, Fault, LineRefused, Scenario, Timeline};
use sp_lines::named;
use std::alloc::Global;

/// The first word of each line.
const NAMES: [(&[u8], LineName); 16] = [
    (b"rel", LineName::Rel),
    (b"prio", LineName::Prio),
    (b"take", LineName::Take),
    (b"takep", LineName::TakePrio),
    (b"tick", LineName::Tick),
    (b"weight", LineName::Weight),
    (b"poll", LineName::Poll),
    (b"pass", LineName::Pass),
    (b"flip", LineName::Flip),
    (b"inject", LineName::Inject),
    (b"craft", LineName::Craft),
    (b"start", LineName::Start),
    (b"stop", LineName::Stop),
    (b"publish", LineName::Publish),
    (b"krel", LineName::Krel),
    (b"ktake", LineName::KTake),
];

/// The event of a line that may come after those before it, or why there is none.
pub fn read_event(
    alloc: Global,
    scenario: &Scenario,
    before: &Timeline,
    words: &[&[u8]],
) -> Result<Event, LineRefused>
    ensures { Reads result (read_event scenario.now before.now (map (λ w. w.now) words.now)) }
{
    let [name, words @ ..] = words else {
        return Err(LineRefused::Bad(Fault::Form));
    };
    let line = LineOf {
        alloc,
        scenario,
        before,
    };
    event_named(&line, name, words)
}

/// The event of a line with this name, and these words behind it.
fn event_named(line: &LineOf<'_>, name: &[u8], words: &[&[u8]]) -> Result<Event, LineRefused>
    ensures { Reads result (read_event line.now.scenario.now line.now.before.now (name.now ∷ map (λ w. w.now) words.now)) }
{
    let Some(name) = line_named(name) else {
        return Err(LineRefused::Bad(Fault::Form));
    };
    match name {
        LineName::Rel => rel(line, words),
        LineName::Prio => prio(line, words),
        LineName::Take => take(line, words),
        LineName::TakePrio => takep(line, words),
        LineName::Tick => tick(line, words),
        LineName::Weight => weight(line, words),
        LineName::Poll => poll(line, words),
        LineName::Pass => pass(line, words),
        LineName::Flip => flip(line, words),
        LineName::Inject => inject(line, words),
        LineName::Craft => craft(line, words),
        LineName::Start => start(line, words),
        LineName::Stop => stop(line, words),
        LineName::Publish => publish(line, words),
        LineName::Krel => krel(line, words),
        LineName::KTake => ktake(line, words),
    }
}

/// The line with this first word.
fn line_named(word: &[u8]) -> Option<LineName>
    ensures { result ≡ line_named word.now }
{
    line_in(&NAMES, word)
}

/// The line of the first of these rows with this word.
fn line_in(rows: &[(&[u8], LineName)], word: &[u8]) -> Option<LineName>
    ensures { result ≡ option_map (λ row. row.1) (find (λ row. same word.now row.0.now) rows.now) }
{
    let row = rows.iter().find(|row| named(word, row.0))?;
    Some(row.1)
}
