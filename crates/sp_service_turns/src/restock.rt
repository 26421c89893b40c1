// The part of a turn before all others: indexes are reserved where few are left.
ghost use Rattle.std.specs.Prelude.{◌≡◌, IsErrOf, OnOk};
ghost use Rattle.sp_keystate.specs.declared.refused.KeyRefused.TheVariants.{KeeperFault};
ghost use Rattle.sp_outside.specs.Causes.{Rose};
ghost use Rattle.sp_service_turns.specs.Done.{Restocked};
ghost use Rattle.sp_service_turns.specs.Early.{EarlyRestock, IfBroken};
ghost use Rattle.sp_service_turns.specs.Keys.{HoldsKeys, IfKeysEnd, IfKeysEndBy, KeepsKeys, KeysGoOn, NoMore};
ghost use Rattle.sp_service_turns.specs.Sinks.{SinkFaults};

use crate::ended::Ended;
use crate::node::Core;
use crate::note::note;
use sp_keystate::{KeyState, RESERVED};
use sp_outside::{Keeper, Sink};
use sp_recording::LineRef;
use std::alloc::Global;

/// Reserves more indexes where few are left: in the key file first, then at the node, and then it is recorded.
#[tactic(auto, using(crate::proofs::KeyLemmas::kept_or_spent))]
pub fn restock<N: Core, P: Keeper, K: Sink>(
    alloc: Global,
    node: &mut N,
    keys: &mut KeyState,
    keeper: &mut P,
    sink: &mut K,
) -> Result<(), Ended>
    requires { HoldsKeys (P.disk keeper.old) keys.old (N.indexes node.old) }
    ensures restocked { OnOk result (Restocked N.steps N.indexes node.old node.new keys.old keys.new
        (record { disk = P.disk keeper.old; past = P.past keeper.old; faults = P.faults keeper.old })
        (record { disk = P.disk keeper.new; past = P.past keeper.new; faults = P.faults keeper.new }) (K.contents sink.old) (K.contents sink.new)) }
    ensures held { OnOk result (HoldsKeys (P.disk keeper.new) keys.new (N.indexes node.new)) }
    ensures on { OnOk result (KeysGoOn keys.old keys.new (P.disk keeper.old) (P.disk keeper.new)) }
    ensures faultless { OnOk result (P.faults keeper.new ≡ P.faults keeper.old) }
    ensures kept { KeepsKeys keys.old (P.disk keeper.old) (P.past keeper.old) (P.past keeper.new) }
    ensures early { IfBroken result (EarlyRestock N.steps N.indexes node.old keys.old
        (record { disk = P.disk keeper.old; past = P.past keeper.old; faults = P.faults keeper.old })
        (record { disk = P.disk keeper.new; past = P.past keeper.new; faults = P.faults keeper.new }) (K.contents sink.old) (K.contents sink.new)) }
    ensures unmoved { IfKeysEnd result ((node.new ≡ node.old) × (K.contents sink.new ≡ K.contents sink.old)) }
    ensures spent { IfKeysEndBy result (λ refused. NoMore (N.indexes node.old) keys.old refused
        (record { disk = P.disk keeper.old; past = P.past keeper.old; faults = P.faults keeper.old })
        (record { disk = P.disk keeper.new; past = P.past keeper.new; faults = P.faults keeper.new })) }
    ensures sink { SinkFaults result (K.faults sink.old) (K.faults sink.new) }
    ensures keeper { IsErrOf result (Ended.Keys KeeperFault) → Rose (P.faults keeper.old) (P.faults keeper.new) }
{
    let indexes = node.indexes();
    if !indexes.are_few() {
        return Ok(());
    }
    match keys.reserve(keeper, RESERVED, indexes.total) {
        Ok(upto) => {
            node.reserve(upto);
            note(alloc, sink, &LineRef::Reserve { upto })
        }
        Err(refused) => Err(Ended::Keys(refused)),
    }
}
