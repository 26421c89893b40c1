// Chains four at a time and one after another: the two bodies of each call agree.
use sp_ots::{private_starts, private_starts_one_by_one, run_chains, run_chains_one_by_one};
use std::test::Fail;

const ID: [u8; 16] = [0, 1, 2, 3, 4, 5, 6, 7, 8, 9, 10, 11, 12, 13, 14, 15];

const LEAF: u32 = 0x0102_0304;

/// The most chains of a parameter set.
const MOST: usize = 265;

/// An element for each chain, all different.
fn first_elements() -> [[u8; 32]; MOST] {
    let mut elements = [[0u8; 32]; MOST];
    for (place, element) in elements.iter_mut().enumerate() {
        *element = [(place % 251) as u8; 32];
        element[0] = (place % 13) as u8;
    }
    elements
}

/// Whether both bodies make the same of the first `count` chains.
fn agree(from: &[u8; MOST], to: &[u8; MOST], count: usize) -> bool {
    let count = count.min(MOST);
    let mut four = first_elements();
    let mut one = first_elements();
    run_chains(&ID, LEAF, &from[..count], &to[..count], &mut four[..count]);
    run_chains_one_by_one(&ID, LEAF, &from[..count], &to[..count], &mut one[..count]);
    four == one
}

/// The first steps of chains, or their last ones: pairs of steps from 0 to 15, each so far from the one before, from the `first` on.
fn steps(first: usize, apart: usize, is_last: bool) -> [u8; MOST] {
    let mut steps = [0u8; MOST];
    for (place, step) in steps.iter_mut().enumerate() {
        let pair = first.wrapping_add(apart.wrapping_mul(place)) % 256;
        *step = (if is_last { pair % 16 } else { pair / 16 }) as u8;
    }
    steps
}

#[test]
fn chains_between_all_steps_are_the_same_by_both_bodies(rt: HostRuntime) -> Result<(), Fail> {
    for count in 0..10usize {
        for first in 0..256usize {
            let from = steps(first, 37, false);
            let to = steps(first, 37, true);
            assert!(rt;
                agree(&from, &to, count),
                "{count} chains from pair {first} on"
            );
        }
    }
    Ok(())
}

#[test]
fn the_longest_and_the_most_chains_are_the_same_by_both_bodies(
    rt: HostRuntime,
) -> Result<(), Fail> {
    assert!(rt; agree(&[0; MOST], &[255; MOST], 34), "all from 0 to 255");
    let from = steps(0, 1, false);
    let to = steps(0, 1, true);
    assert!(rt; agree(&from, &to, MOST), "each pair of steps from 0 to 15");
    Ok(())
}

/// Whether both bodies make the same of the private starts of so many chains.
fn starts_agree(count: usize) -> bool {
    let count = count.min(MOST);
    let mut four = [[0u8; 32]; MOST];
    let mut one = [[0u8; 32]; MOST];
    private_starts(&ID, LEAF, &[0x55; 32], &mut four[..count]);
    private_starts_one_by_one(&ID, LEAF, &[0x55; 32], &mut one[..count]);
    four == one
}

#[test]
fn private_starts_are_the_same_by_both_bodies(rt: HostRuntime) -> Result<(), Fail> {
    for count in 0..MOST + 1 {
        assert!(rt; starts_agree(count), "{count} chains");
    }
    Ok(())
}
