// A copy of an event, by the kinds of events.
ghost use Rattle.std.specs.Prelude.{◌≡◌, IfOk};
ghost use Rattle.sp_schedule_events.specs.Kinds.{IsAsked, IsCraft, IsOfDocument, IsOfFrame, IsOnPaths};

use crate::Event;
use sp_base::{Bytes, Listed, Memory};
use sp_schedule_crafts::copy_object;
use std::alloc::Global;

impl Event {
    /// The same event in memory of its own.
    pub fn copy(&self, alloc: Global) -> Result<Event, Memory>
        ensures { IfOk result (λ copied. copied ≡ self.now) }
    {
        match self {
            Event::Rel { .. }
            | Event::Prio { .. }
            | Event::Take { .. }
            | Event::TakePrio { .. }
            | Event::Tick { .. }
            | Event::Weight { .. } => copy_asked(alloc, self),
            Event::Poll { .. } | Event::Pass { .. } | Event::Flip { .. } | Event::Inject { .. } => {
                copy_of_frame(alloc, self)
            }
            Event::Craft { .. } | Event::CraftStatus { .. } => copy_craft(alloc, self),
            Event::Publish { .. } | Event::CraftDocument { .. } => copy_of_document(alloc, self),
            Event::Krel { .. } | Event::KTake { .. } => copy_on_paths(alloc, self),
            Event::Start { u } => Ok(Event::Start { u: *u }),
            Event::Stop { u } => Ok(Event::Stop { u: *u }),
        }
    }
}

/// The same of what a client or the clock asks.
fn copy_asked(alloc: Global, event: &Event) -> Result<Event, Memory>
    requires { IsAsked event.now }
    ensures { IfOk result (λ copied. copied ≡ event.now) }
{
    match event {
        Event::Rel { s, d, payload } => Ok(Event::Rel {
            s: *s,
            d: *d,
            payload: Bytes::copy(alloc, payload.as_slice())?,
        }),
        Event::Prio {
            s,
            d,
            prio,
            expiry,
            paths,
            payload,
        } => Ok(Event::Prio {
            s: *s,
            d: *d,
            prio: *prio,
            expiry: *expiry,
            paths: *paths,
            payload: Bytes::copy(alloc, payload.as_slice())?,
        }),
        Event::Take { d, s } => Ok(Event::Take { d: *d, s: *s }),
        Event::TakePrio { d } => Ok(Event::TakePrio { d: *d }),
        Event::Tick { u, now } => Ok(Event::Tick { u: *u, now: *now }),
        Event::Weight { u, v, weight } => Ok(Event::Weight {
            u: *u,
            v: *v,
            weight: *weight,
        }),
        _ => unreachable!(),
    }
}

/// The same of what a client asks of a flow on paths.
fn copy_on_paths(alloc: Global, event: &Event) -> Result<Event, Memory>
    requires { IsOnPaths event.now }
    ensures { IfOk result (λ copied. copied ≡ event.now) }
{
    match event {
        Event::Krel {
            s,
            d,
            paths,
            payload,
        } => Ok(Event::Krel {
            s: *s,
            d: *d,
            paths: *paths,
            payload: Bytes::copy(alloc, payload.as_slice())?,
        }),
        Event::KTake { d, s } => Ok(Event::KTake { d: *d, s: *s }),
        _ => unreachable!(),
    }
}

/// The same of a frame that is made, arrives, is changed on its way, or is made up.
fn copy_of_frame(alloc: Global, event: &Event) -> Result<Event, Memory>
    requires { IsOfFrame event.now }
    ensures { IfOk result (λ copied. copied ≡ event.now) }
{
    match event {
        Event::Poll { u, v } => Ok(Event::Poll { u: *u, v: *v }),
        Event::Pass { u, v, number } => Ok(Event::Pass {
            u: *u,
            v: *v,
            number: *number,
        }),
        Event::Flip {
            u,
            v,
            number,
            back,
            bit,
        } => Ok(Event::Flip {
            u: *u,
            v: *v,
            number: *number,
            back: *back,
            bit: *bit,
        }),
        Event::Inject { u, v, bytes } => Ok(Event::Inject {
            u: *u,
            v: *v,
            bytes: Bytes::copy(alloc, bytes.as_slice())?,
        }),
        _ => unreachable!(),
    }
}

/// The same of a frame that a compromised node crafts.
fn copy_craft(alloc: Global, event: &Event) -> Result<Event, Memory>
    requires { IsCraft event.now }
    ensures { IfOk result (λ copied. copied ≡ event.now) }
{
    match event {
        Event::Craft { c, v, key, object } => Ok(Event::Craft {
            c: *c,
            v: *v,
            key: *key,
            object: copy_object(alloc, object)?,
        }),
        Event::CraftStatus {
            c,
            v,
            s,
            d,
            base,
            have,
        } => Ok(Event::CraftStatus {
            c: *c,
            v: *v,
            s: *s,
            d: *d,
            base: *base,
            have: *have,
        }),
        _ => unreachable!(),
    }
}

/// The same of a document that is handed to a node, or that a compromised node sends.
fn copy_of_document(alloc: Global, event: &Event) -> Result<Event, Memory>
    requires { IsOfDocument event.now }
    ensures { IfOk result (λ copied. copied ≡ event.now) }
{
    match event {
        Event::Publish { u, weights } => Ok(Event::Publish {
            u: *u,
            weights: copy_weights(alloc, weights)?,
        }),
        Event::CraftDocument {
            c,
            v,
            key,
            version,
            weights,
        } => Ok(Event::CraftDocument {
            c: *c,
            v: *v,
            key: *key,
            version: *version,
            weights: copy_weights(alloc, weights)?,
        }),
        _ => unreachable!(),
    }
}

/// The same weights, where there are some.
pub fn copy_weights(
    alloc: Global,
    weights: &Option<Listed<u32>>,
) -> Result<Option<Listed<u32>>, Memory>
    ensures { IfOk result (λ copied. copied ≡ weights.now) }
{
    let Some(weights) = weights else {
        return Ok(None);
    };
    let copied = Vec::from_slice(alloc, weights.as_slice())?;
    Ok(Some(Listed::from_vec(copied)))
}
