// Crafted messages with the boots that their receiver holds of the ends.
ghost use Rattle.std.specs.Prelude.{◌≡◌};
ghost use Rattle.sp_adversary.specs.Boots.{dated_with, ends_of};

use sp_base::{Flow, NodeId};
use sp_msg::{Ack, Body, Kack, Krel, Prio, Rel};

/// The boots of the ends of a flow, as the receiver of a crafted frame holds them: 0 where it holds none.
#[derive(Clone, Copy, Debug)]
pub struct EndBoots {
    pub sboot: u64,
    pub dboot: u64,
}

/// The ends that a crafted message names, of which its receiver may hold boots. An update of a weight names none: node 0 stands for them.
pub fn ends_of(body: &Body) -> Flow
    ensures { result ≡ ends_of body.now }
{
    match body {
        Body::Prio(prio) => Flow::between(prio.src, prio.dst),
        Body::Rel(rel) => Flow::between(rel.src, rel.dst),
        Body::Ack(ack) => Flow::between(ack.src, ack.dst),
        Body::Krel(rel) => Flow::between(rel.src, rel.dst),
        Body::Kack(ack) => Flow::between(ack.src, ack.dst),
        _ => Flow::between(NodeId(0), NodeId(0)),
    }
}

/// The message with these boots of its ends. One that names none stays as it is.
pub fn dated(body: Body, boots: EndBoots) -> Body
    ensures { result ≡ dated_with boots body }
{
    let EndBoots { sboot, dboot } = boots;
    match body {
        Body::Prio(prio) => Body::Prio(Prio { sboot, ..prio }),
        Body::Rel(rel) => Body::Rel(Rel {
            sboot,
            dboot,
            ..rel
        }),
        Body::Ack(ack) => Body::Ack(Ack {
            sboot,
            dboot,
            ..ack
        }),
        Body::Krel(rel) => Body::Krel(Krel {
            sboot,
            dboot,
            ..rel
        }),
        Body::Kack(ack) => Body::Kack(Kack {
            sboot,
            dboot,
            ..ack
        }),
        other => other,
    }
}
