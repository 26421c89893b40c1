// Whether the tag of an arrival is forged.
ghost use Rattle.std.specs.Prelude.{◌≡◌, ◌&&◌, not};
ghost use Rattle.sp_runs.specs.Forgery.{is_made, is_tagged};
ghost use Rattle.sp_runs.specs.Scenarios.{setting_of};
ghost use Rattle.sp_runs.specs.Settings.{is_correct};
ghost use Rattle.sp_runs.specs.Worlds.{frames_in};

use crate::nodes::is_correct;
use sp_base::NodeId;
use sp_frame::Frame;
use sp_rules::LinkReply;
use sp_schedule_events::Scenario;
use sp_world_steps::Directions;

/// Whether these bytes with a right tag came from a correct node that never made them for `v`.
pub fn has_forged_tag(
    scenario: &Scenario,
    directions: &Directions,
    u: NodeId,
    v: NodeId,
    bytes: &[u8],
    link: &LinkReply,
) -> bool
    ensures { result ≡ (is_correct (setting_of scenario.now) u && is_tagged link.now && not (is_made bytes.now (frames_in directions.now u v))) }
{
    is_correct(scenario, u)
        && is_tagged(link)
        && !directions.has(u, v, counter_of(scenario.format, bytes), bytes)
}

/// Whether a reply tells that the tag was right.
fn is_tagged(link: &LinkReply) -> bool
    ensures { result ≡ is_tagged link.now }
{
    matches!(
        link,
        LinkReply::Learned { .. }
            | LinkReply::Stale { .. }
            | LinkReply::OtherTopology { .. }
            | LinkReply::Section(_)
            | LinkReply::Withdrawn
            | LinkReply::Fresh
    )
}

/// The counter of bytes that are a frame of a format: its number, where a correct node made it.
fn counter_of(format: u8, bytes: &[u8]) -> u64 {
    match Frame::open_in(bytes, format) {
        Ok(frame) => frame.head().counter,
        Err(_) => 0,
    }
}
