// A reserve of 32 indexes on a file with bound 32 and boot 1, stopped after each of its six calls, and failing in each of them.
ghost use Rattle.std.specs.Prelude.{◌≤◌, IfOk, vec_len};
ghost use Rattle.sp_outside.specs.declared.keeper.TheConstants.{FILE_BYTES};

use sp_keystate::{KeyRefused, format, open, start};
use sp_outside::{FILE_BYTES, KeeperCall, KeeperPlan, PlannedKeeper};
use std::alloc::Global;
use std::process::Abort;
use std::test::Fail;

/// The calls of an `open`: a sync and two reads.
const OPENING: usize = 3;

/// The least and the greatest bound that a crash leaves before the first call of a reserve and after each of its six.
const BOUNDS: [(u64, u64); 7] = [
    (32, 32),
    (32, 32),
    (32, 32),
    (32, 32),
    (32, 32),
    (32, 64),
    (64, 64),
];

/// What a crash may make of a byte that isn't sure, beside what was written there.
const FILLS: [Option<u8>; 6] = [None, Some(0), Some(1), Some(0x25), Some(0xa5), Some(0xff)];

/// The calls that fail, of each kind by their numbers from the opening on: the writes and the syncs of a reserve.
const FAILING: [(&[u64], &[u64]); 6] = [
    (&[0], &[]),
    (&[], &[1]),
    (&[1], &[]),
    (&[], &[2]),
    (&[2], &[]),
    (&[], &[3]),
];

/// A byte of a file, and whether every image holds it.
#[derive(Clone, Copy)]
struct Cell {
    byte: u8,
    is_sure: bool,
}

/// What a write of one byte leaves.
fn written(cell: Cell, byte: u8) -> Cell {
    Cell {
        byte,
        is_sure: cell.is_sure && cell.byte == byte,
    }
}

/// The cells after a call.
fn after(cells: &mut [Cell], call: &KeeperCall) {
    match call {
        KeeperCall::Written { at, bytes, .. } => {
            for (cell, byte) in cells.iter_mut().skip(*at as usize).zip(bytes) {
                *cell = written(*cell, *byte);
            }
        }
        KeeperCall::Synced { is_done: true } => {
            for cell in cells.iter_mut() {
                cell.is_sure = true;
            }
        }
        _ => {}
    }
}

/// An image after these calls, with zeros behind its end: each byte that isn't sure is as it was written, or becomes this one.
fn image(first: &[u8], calls: &[KeeperCall], fill: Option<u8>) -> [u8; FILE_BYTES] {
    let mut cells = [Cell {
        byte: 0,
        is_sure: true,
    }; FILE_BYTES];
    for (cell, byte) in cells.iter_mut().zip(first) {
        cell.byte = *byte;
    }
    for call in calls {
        after(&mut cells, call);
    }
    let mut bytes = [0; FILE_BYTES];
    for (byte, cell) in bytes.iter_mut().zip(&cells) {
        *byte = match fill {
            Some(other) if !cell.is_sure => other,
            _ => cell.byte,
        };
    }
    bytes
}

/// The bytes of a file that was formatted, and started once.
fn started(alloc: Global) -> Result<Vec<u8>, Fail>
    ensures { IfOk result (λ bytes. vec_len bytes ≤ FILE_BYTES) }
{
    let mut keeper = PlannedKeeper::new(alloc, &[], KeeperPlan::none());
    let _formatted = format(&mut keeper);
    let _started = start(&mut keeper, 32, 1024);
    let mut bytes = Vec::from_slice(alloc, keeper.bytes())?;
    bytes.truncate(FILE_BYTES);
    Ok(bytes)
}

/// The bound that a file opens with.
fn bound_of(alloc: Global, file: &[u8; FILE_BYTES]) -> Option<u64> {
    open(&mut PlannedKeeper::new(alloc, file, KeeperPlan::none()))
        .ok()
        .map(|state| state.bound)
}

#[test]
fn a_reserve_that_is_stopped_takes_nothing_back(rt: HostRuntime) -> Result<(), Fail> {
    let alloc = rt.alloc();
    let first = started(alloc)?;
    let mut keeper = PlannedKeeper::new(alloc, &first, KeeperPlan::none());
    if let Ok(mut state) = open(&mut keeper) {
        let reserved = state.reserve(&mut keeper, 32, 1024);
        assert!(rt; reserved == Ok(64));
    }
    assert!(rt; keeper.calls().len() == OPENING + 6);
    for (count, (least, most)) in BOUNDS.iter().enumerate() {
        let calls = keeper.calls().get(..OPENING + count).unwrap_or(&[]);
        for fill in FILLS {
            let bound = bound_of(alloc, &image(&first, calls, fill));
            assert!(rt;
                bound == Some(*least) || bound == Some(*most),
                "{count} {fill:?} {bound:?}"
            );
        }
    }
    Ok(())
}

#[test]
fn a_reserve_that_fails_takes_nothing_back(rt: HostRuntime) -> Result<(), Fail> {
    let alloc = rt.alloc();
    let first = started(alloc)?;
    for (writes, syncs) in FAILING {
        let plan = KeeperPlan {
            reads: &[],
            writes,
            syncs,
        };
        let mut keeper = PlannedKeeper::new(alloc, &first, plan);
        if let Ok(mut state) = open(&mut keeper) {
            let reserved = state.reserve(&mut keeper, 32, 1024);
            assert!(rt;
                reserved == Err(KeyRefused::KeeperFault),
                "{writes:?} {syncs:?}"
            );
        }
        let opened = open(&mut keeper);
        assert!(rt;
            opened.is_ok_and(|state| state.bound >= 32),
            "{writes:?} {syncs:?}"
        );
    }
    Ok(())
}
