// Plans of the most packages there can be.
use crate::long::{CELLS, Chain, PACKAGES, check_chains, unsorted, work};
use cases::{blank, check, check_eq, empty_ledger};
use catalogue::{Catalogue, Ledger};
use closing::PackageRecord;
use labels::Minutes;
use plan::{PlanCounts, plan};
use std::alloc::Global;
use std::test::Fail;

// How many arcs at most lead on from each package of the ladder, and how many there are to each
// package but one of the star.
const RUNGS: u32 = 60;

// Plans for one package; answers what the records and the set table hold then.
fn planned(
    heap: Global,
    c: &Ledger<'_, Minutes>,
    changed: u32,
    counts: PlanCounts,
) -> Result<(Vec<PackageRecord>, Vec<u8>), Fail> {
    let mut records = unsorted(heap)?;
    let mut words = work(heap, c.stock_len())?;
    let mut sets = vec![in heap; 77; CELLS]?;
    let answer = plan(
        c,
        &[changed],
        records.as_mut_slice(),
        words.as_mut_slice(),
        sets.as_mut_slice(),
    );
    check_eq(answer, Ok(counts))?;
    Ok((records, sets))
}

// Plans where each package waits for the next one of a chain alone.
fn check_waits(
    heap: Global,
    c: &Ledger<'_, Minutes>,
    chain: Chain,
    skipped: u32,
) -> Result<(), Fail> {
    let counts = PlanCounts {
        jobs: PACKAGES,
        waves: PACKAGES,
        merged: 1023,
        skipped,
        inner: 0,
    };
    let (records, sets) = planned(heap, c, chain.last(), counts)?;
    let mut bytes = sets.iter();
    check((0..PACKAGES).all(|from| {
        (0..PACKAGES).all(|to| {
            let byte = match chain.steps(from, to) {
                0 => 0,
                1 => 2,
                _ => 1,
            };
            bytes.next() == Some(&byte)
        })
    }))?;
    let expected = (0..PACKAGES).map(|p| PackageRecord {
        wave: chain.steps(p, chain.last()),
        ..chain.record(p)
    });
    check(records.iter().copied().eq(expected))
}

fn check_chain(heap: Global, c: &Ledger<'_, Minutes>, chain: Chain) -> Result<(), Fail> {
    check_waits(heap, c, chain, 0)
}

#[test]
fn chains(rt: HostRuntime) -> Result<(), Fail> {
    check_chains(rt.alloc(), check_chain)
}

// Each package leads to the 60 below it, or to all that there are. That makes 60 × 1,023 − (1 + .. + 59)
// arcs, 59,610.
#[test]
fn ladder(rt: HostRuntime) -> Result<(), Fail> {
    let heap = rt.alloc();
    let mut arcs = blank(heap, 59610)?;
    let mut ledger = empty_ledger(PACKAGES, arcs.as_mut_slice())?;
    for p in 1..PACKAGES {
        for q in p.saturating_sub(RUNGS)..p {
            ledger.admit(p, q, Minutes { value: 1 })?;
        }
    }
    check_eq(ledger.places_left(), 0)?;
    check_waits(heap, &ledger, Chain::Down, 58587)
}

// From each package 60 arcs lead to package 0.
#[test]
fn star(rt: HostRuntime) -> Result<(), Fail> {
    let heap = rt.alloc();
    let mut arcs = blank(heap, 61380)?;
    let mut ledger = empty_ledger(PACKAGES, arcs.as_mut_slice())?;
    for value in 0..RUNGS {
        for p in 1..PACKAGES {
            ledger.admit(p, 0, Minutes { value })?;
        }
    }
    check_eq(ledger.places_left(), 0)?;
    let counts = PlanCounts {
        jobs: PACKAGES,
        waves: 2,
        merged: 1023,
        skipped: 60357,
        inner: 0,
    };
    let (records, sets) = planned(heap, &ledger, 0, counts)?;
    let mut waves = records.iter().map(|record| record.wave);
    check((0..PACKAGES).all(|p| waves.next() == Some(p.min(1))))?;
    let mut bytes = sets.iter();
    check((0..PACKAGES).all(|from| {
        (0..PACKAGES).all(|to| bytes.next() == Some(&(if from > 0 && to == 0 { 2 } else { 0 })))
    }))
}
