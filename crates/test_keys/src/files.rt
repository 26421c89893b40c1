// What stands in a key file, from an empty one to two open slots of one serial, and what opening it gives.
ghost use Rattle.std.specs.Prelude.{◌≤◌, IfOk, vec_len};
ghost use Rattle.sp_outside.specs.declared.keeper.TheConstants.{FILE_BYTES};

use hex::decode;
use sp_keystate::{KeyRefused, KeyState, format, open};
use sp_outside::{FILE_BYTES, KeeperPlan, PlannedKeeper};
use std::alloc::Global;
use std::process::Abort;
use std::test::Fail;

/// Where the second slot begins.
const SECOND: usize = 64;

/// The first slot and the second one in hexadecimal, and the serial, the bound and the boot that the file opens with.
const OPENED: [(&str, &str, (u64, u64, u64)); 7] = [
    (
        "a5000000000000000100000000000000000000000000000000",
        "",
        (1, 0, 0),
    ),
    (
        "a5000000000000000300000000000000200000000000000001",
        "a5000000000000000200000000000000000000000000000001",
        (3, 32, 1),
    ),
    (
        "a5000000000000000300000000000000200000000000000001",
        "a5000000000000000400000000000000400000000000000001",
        (4, 64, 1),
    ),
    // two open slots with one serial: the first
    (
        "a5000000000000000300000000000000200000000000000001",
        "a5000000000000000300000000000000400000000000000002",
        (3, 32, 1),
    ),
    // a gate of another byte, and a closed one
    (
        "a4000000000000000500000000000000200000000000000001",
        "a5000000000000000400000000000000400000000000000001",
        (4, 64, 1),
    ),
    (
        "a5000000000000000300000000000000200000000000000001",
        "00000000000000000400000000000000400000000000000001",
        (3, 32, 1),
    ),
    // half a slot
    (
        "a5000000000000000300000000000000200000000000000001",
        "a50000000000000004000000000000004000000000000000",
        (3, 32, 1),
    ),
];

/// Files of which no slot is open.
const UNFORMATTED: [(&str, &str); 5] = [
    ("", ""),
    ("a5", ""),
    ("a50000000000000001000000000000000000000000000000", ""),
    ("00000000000000000100000000000000000000000000000000", ""),
    ("", "00000000000000000100000000000000000000000000000000"),
];

/// A file of one slot, the number of all indexes, and the number at which a reserve and the next boot are at an end, if they are.
const ENDS: [(&str, u64, Option<u64>, Option<u64>); 4] = [
    (
        "a5000000000000000300000000000000200000000000000001",
        33,
        None,
        None,
    ),
    (
        "a5000000000000000300000000000000200000000000000001",
        32,
        Some(32),
        None,
    ),
    (
        "a5ffffffffffffffff00000000000000200000000000000001",
        1024,
        Some(u64::MAX),
        Some(u64::MAX),
    ),
    (
        "a5000000000000000300000000000000207fffffffffffffff",
        1024,
        None,
        Some((1 << 63) - 1),
    ),
];

/// The bytes of a file with these slots.
fn file_of(alloc: Global, first: &str, second: &str) -> Result<Vec<u8>, Fail>
    ensures { IfOk result (λ bytes. vec_len bytes ≤ FILE_BYTES) }
{
    let mut bytes = decode(alloc, first)?;
    if !second.is_empty() {
        let gap = SECOND.saturating_sub(bytes.len());
        bytes.extend_from_slice(&vec![in alloc; 0u8; gap]?)?;
        bytes.extend_from_slice(&decode(alloc, second)?)?;
    }
    bytes.truncate(FILE_BYTES);
    Ok(bytes)
}

/// The numbers of a state.
fn numbers(state: &KeyState) -> (u64, u64, u64) {
    (state.serial, state.bound, state.boot)
}

/// The number at which a call is at an end.
fn end_of(answer: Result<u64, KeyRefused>) -> Option<u64> {
    match answer {
        Err(KeyRefused::Exhausted { number }) => Some(number),
        _ => None,
    }
}

#[test]
fn the_open_slot_of_the_greatest_serial_is_opened(rt: HostRuntime) -> Result<(), Fail> {
    let alloc = rt.alloc();
    for (first, second, expected) in OPENED {
        let file = file_of(alloc, first, second)?;
        let mut keeper = PlannedKeeper::new(alloc, &file, KeeperPlan::none());
        let opened = open(&mut keeper);
        assert!(rt; opened.is_ok(), "{first} {second}");
        if let Ok(state) = opened {
            assert!(rt; numbers(&state) == expected, "{first} {second}");
        }
        let again = format(&mut keeper);
        assert!(rt;
            matches!(&again, Err(KeyRefused::Formatted)),
            "{first} {second}"
        );
    }
    Ok(())
}

#[test]
fn a_file_without_an_open_slot_is_unformatted(rt: HostRuntime) -> Result<(), Fail> {
    let alloc = rt.alloc();
    for (first, second) in UNFORMATTED {
        let file = file_of(alloc, first, second)?;
        let mut keeper = PlannedKeeper::new(alloc, &file, KeeperPlan::none());
        let opened = open(&mut keeper);
        assert!(rt;
            matches!(&opened, Err(KeyRefused::Unformatted)),
            "{first} {second}"
        );
        let formatted = format(&mut keeper);
        assert!(rt; formatted.is_ok(), "{first} {second}");
        if let Ok(state) = open(&mut keeper) {
            assert!(rt; numbers(&state) == (1, 0, 0), "{first} {second}");
        }
    }
    Ok(())
}

#[test]
fn each_number_has_its_end(rt: HostRuntime) -> Result<(), Fail> {
    let alloc = rt.alloc();
    for (first, total, of_reserve, of_boot) in ENDS {
        let file = file_of(alloc, first, "")?;
        let mut keeper = PlannedKeeper::new(alloc, &file, KeeperPlan::none());
        if let Ok(mut state) = open(&mut keeper) {
            let reserved = state.reserve(&mut keeper, 32, total);
            assert!(rt; end_of(reserved) == of_reserve, "{first} {total}");
        }
        let mut keeper = PlannedKeeper::new(alloc, &file, KeeperPlan::none());
        if let Ok(mut state) = open(&mut keeper) {
            let booted = state.next_boot(&mut keeper);
            assert!(rt; end_of(booted) == of_boot, "{first}");
        }
    }
    Ok(())
}
