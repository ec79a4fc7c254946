// The five packages of the worked case, sorted and closed by order.
use crate::scenes::{PLACES, labelled};
use crate::short::{check_numbered, numbered};
use crate::sorted::{UNSORTED, unsorted};
use crate::worked::{NONE, five};
use cases::{blank, check, check_eq, empty_ledger};
use catalogue::{Call, Holding, Layer, Refusal, run};
use closing::{PackageRecord, by_order, sort};
use labels::Minutes;
use std::alloc::{AllocError, Global};
use std::test::Fail;

// More words than are needed, with all bits set.
fn work(heap: Global) -> Result<Vec<u32>, AllocError> {
    Ok(vec![in heap; u32::MAX; 200]?)
}

// The name and the rank of each package's group.
const SORTED: [(u32, u32); 5] = [(0, 2), (1, 1), (2, 0), (2, 0), (4, 3)];

fn check_five(records: &[PackageRecord]) -> Result<(), Fail> {
    check_records(records, &SORTED)
}

// These packages' records, and unwritten ones behind them.
fn check_records(records: &[PackageRecord], sorted: &[(u32, u32)]) -> Result<(), Fail> {
    let expected = sorted.iter().map(|(group, rank)| PackageRecord {
        group: *group,
        rank: *rank,
        wave: 4294967295,
    });
    check(records.iter().take(sorted.len()).copied().eq(expected))?;
    check(
        records
            .iter()
            .skip(sorted.len())
            .all(|record| *record == UNSORTED),
    )
}

#[test]
fn groups(rt: HostRuntime) -> Result<(), Fail> {
    let heap = rt.alloc();
    let mut arcs = blank::<Minutes>(heap, PLACES)?;
    let mut ledger = empty_ledger(5, arcs.as_mut_slice())?;
    let calls = labelled(heap, five(heap, &[])?.as_slice())?;
    run(&mut ledger, calls.as_slice());
    let mut records = unsorted(heap)?;
    let mut words = work(heap)?;
    let answer = sort(&ledger, records.as_mut_slice(), words.as_mut_slice());
    check_eq(answer, Ok(4))?;
    check_five(records.as_slice())?;
    let mut table = numbered(heap, 100..130)?;
    let mut records = unsorted(heap)?;
    let answer = by_order(
        &ledger,
        table.as_mut_slice(),
        records.as_mut_slice(),
        words.as_mut_slice(),
    );
    check_eq(answer, Err(Refusal::Loop))?;
    check_numbered(table.as_slice(), 100..130)?;
    check_five(records.as_slice())
}

// What closing by order gives after this further call: the minutes of these pairs, and none of any
// other. Answers the records.
fn check_opened(
    heap: Global,
    then: Call<u32>,
    pairs: &[(u32, u32, u32)],
) -> Result<Vec<PackageRecord>, Fail> {
    let mut arcs = blank::<Minutes>(heap, PLACES)?;
    let mut top = Holding::over(empty_ledger(5, arcs.as_mut_slice())?);
    let calls = labelled(heap, five(heap, &[then])?.as_slice())?;
    run(&mut top, calls.as_slice());
    let mut table = numbered(heap, 100..130)?;
    let mut records = unsorted(heap)?;
    let mut words = work(heap)?;
    by_order(
        &top,
        table.as_mut_slice(),
        records.as_mut_slice(),
        words.as_mut_slice(),
    )?;
    let mut cells = table.iter().map(|cell| cell.value);
    check((0..5).all(|from| (0..5).all(|to| cells.next() == Some(minutes(pairs, from, to)))))?;
    check(cells.eq(125..130))?;
    Ok(records)
}

fn minutes(pairs: &[(u32, u32, u32)], from: u32, to: u32) -> u32 {
    pairs
        .iter()
        .find(|pair| pair.0 == from && pair.1 == to)
        .map_or(NONE, |pair| pair.2)
}

#[test]
fn opened(rt: HostRuntime) -> Result<(), Fail> {
    let heap = rt.alloc();
    let withdrawn = [
        (0, 1, 4),
        (0, 2, 7),
        (0, 3, 8),
        (1, 2, 3),
        (1, 3, 4),
        (2, 3, 1),
        (4, 0, 5),
        (4, 1, 9),
        (4, 2, 12),
        (4, 3, 13),
    ];
    let records = check_opened(heap, Call::Withdraw(3, 2), &withdrawn)?;
    check_records(
        records.as_slice(),
        &[(0, 3), (1, 2), (2, 1), (3, 0), (4, 4)],
    )?;
    check_opened(heap, Call::Hold(2), &[(0, 1, 4), (4, 0, 5), (4, 1, 9)])?;
    let held = [
        (0, 1, 4),
        (0, 2, 7),
        (1, 2, 3),
        (4, 0, 5),
        (4, 1, 9),
        (4, 2, 12),
    ];
    check_opened(heap, Call::Hold(3), &held)?;
    Ok(())
}
