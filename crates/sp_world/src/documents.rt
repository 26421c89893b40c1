// What the administrator hands out.
ghost use Rattle.std.specs.Prelude.{ℕ, ◌≡◌, List, IfOk, IsTrue, None as Nothing, OnOk, is_some, unwrap_or};
ghost use Rattle.sp_runs.specs.Scenarios.{setting_of};
ghost use Rattle.sp_schedule_events.specs.Documents.{list_in, with_list};
ghost use Rattle.sp_world.specs.Boots.{IsHome};
ghost use Rattle.sp_world.specs.Documents.{CanHandOut, IsHanded};

use crate::home::Home;
use sp_base::{Bytes, Listed, Memory};
use sp_schedule_events::{Event, Published, Scenario, add_list, list_in};
use std::alloc::Global;

/// The document that the administrator hands out in an event: that of the version which it publishes, or of the last one. The version is counted. Where the
/// event publishes nothing it is empty.
#[tactic(auto, using(crate::proofs::Rules::handed_out))]
pub fn hand_out(
    alloc: Global,
    scenario: &Scenario,
    home: &Home,
    published: &mut Published,
    event: &Event,
) -> Result<Bytes, Memory>
    requires home { IsHome scenario.now home.now }
    requires can { CanHandOut scenario.now published.old event.now }
    ensures published { OnOk result (published.new ≡ with_list published.old (list_in event.now)) }
    ensures document { IfOk result (λ document. IsHanded (setting_of scenario.now) published.old event.now document) }
{
    match event {
        Event::Publish { .. } => {
            let list = list_in(alloc, event)?;
            add_list(published, list);
            let Some(weights) = &published.weights else {
                unreachable!()
            };
            home.document(alloc, scenario, published.version, weights.as_slice())
        }
        _ => Ok(Bytes::from_vec(Vec::new(alloc))),
    }
}

/// These weights, or the last ones.
pub fn weights_of<'a>(weights: &'a Option<Listed<u32>>, last: &'a Published) -> &'a [u32]
    requires { weights.now ≡ Nothing → IsTrue (is_some last.now.weights) }
    ensures { (own : List ℕ) → result.now ≡ unwrap_or weights.now (unwrap_or last.now.weights own) }
{
    match (weights, &last.weights) {
        (Some(weights), _) => weights.as_slice(),
        (None, Some(weights)) => weights.as_slice(),
        (None, None) => unreachable!(),
    }
}
