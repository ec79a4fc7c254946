// Worked cases.
use crate::chains::Chains;
use crate::closed::{label, unwritten};
use crate::kinds::Kind;
use crate::scenes::{PLACES, in_force, labelled};
use crate::sorted::{unsorted, work};
use cases::{Reference, blank, check, check_eq, empty_ledger};
use catalogue::{Call, Holding, Layer, Refusal, run};
use closing::row;
use labels::{Licence, Minutes, Reach};
use paths::Arc;
use runs::close_all;
use std::alloc::{AllocError, Global};
use std::test::Fail;

pub(crate) const NONE: u32 = 4294967295;

// A pair of packages, and the word of its label.
fn pair(from: u32, to: u32, label: u32) -> Arc<u32> {
    Arc { from, to, label }
}

fn check_pairs<K: Kind>(table: &[K], n: u32, pairs: &[Arc<u32>]) -> Result<(), Fail> {
    for pair in pairs {
        let cells = row(table, n, pair.from)?;
        check(cells.get(pair.to as usize) == Some(&label(pair.label)))?;
    }
    Ok(())
}

// What the closings and the chains give after these calls on Holding over a ledger.
fn check_case<K: Kind>(
    heap: Global,
    n: u32,
    calls: &[Call<u32>],
    rounds: usize,
    ordered: Result<(), Refusal>,
    pairs: &[Arc<u32>],
) -> Result<(), Fail> {
    let mut arcs = blank::<K>(heap, PLACES)?;
    let ledger = empty_ledger(n, arcs.as_mut_slice())?;
    let mut top = Holding::over(ledger);
    let labelled_calls = labelled(heap, calls)?;
    run(&mut top, labelled_calls.as_slice());
    let mut first = unwritten(heap)?;
    let mut changed = unwritten(heap)?;
    let mut found = unwritten(heap)?;
    let mut second = unwritten(heap)?;
    let mut third = unwritten(heap)?;
    let mut records = unsorted(heap)?;
    let mut words = work(heap, &top)?;
    let closings = close_all(
        &top,
        first.as_mut_slice(),
        changed.as_mut_slice(),
        found.as_mut_slice(),
        second.as_mut_slice(),
        third.as_mut_slice(),
        records.as_mut_slice(),
        words.as_mut_slice(),
    );
    check_eq(closings.by_rounds, Ok(rounds))?;
    check_eq(closings.by_elimination, Ok(()))?;
    check_eq(closings.by_order, ordered)?;
    check_pairs(first.as_slice(), n, pairs)?;
    check_pairs(second.as_slice(), n, pairs)?;
    if ordered.is_ok() {
        check_pairs(third.as_slice(), n, pairs)?;
    }
    let mut reference = Reference::new(heap, n, K::NO_WORD, PLACES, 32);
    reference.run(calls)?;
    let arcs = in_force(heap, &reference)?;
    let chains = Chains::<K>::new(heap, n, arcs.as_slice())?;
    check_eq(chains.rounds(), Some(rounds))?;
    for pair in pairs {
        check_eq(chains.word(pair.from, pair.to), pair.label)?;
    }
    Ok(())
}

// The arcs of five packages: the ends and the minutes of each.
const FIVE: [(u32, u32, u32); 6] = [
    (0, 1, 4),
    (1, 2, 3),
    (0, 2, 9),
    (2, 3, 1),
    (3, 2, 2),
    (4, 0, 5),
];

// The calls that admit those arcs, and further ones.
pub(crate) fn five(heap: Global, then: &[Call<u32>]) -> Result<Vec<Call<u32>>, AllocError> {
    let mut calls: Vec<_> = FIVE
        .iter()
        .map(|(from, to, minutes)| Call::Admit(*from, *to, *minutes))
        .collect(heap)?;
    calls.extend_from_slice(then)?;
    Ok(calls)
}

#[test]
fn five_packages(rt: HostRuntime) -> Result<(), Fail> {
    let pairs = [
        pair(0, 2, 7),
        pair(4, 3, 13),
        pair(2, 2, 3),
        pair(2, 3, 1),
        pair(3, 2, 2),
        pair(0, 0, NONE),
        pair(0, 1, 4),
    ];
    let heap = rt.alloc();
    let calls = five(heap, &[])?;
    check_case::<Minutes>(heap, 5, calls.as_slice(), 4, Err(Refusal::Loop), &pairs)?;
    // a worse arc beside another changes nothing
    let calls = five(heap, &[Call::Admit(0, 1, 6)])?;
    check_case::<Minutes>(heap, 5, calls.as_slice(), 4, Err(Refusal::Loop), &pairs)?;
    let calls = five(heap, &[Call::Hold(1)])?;
    let held = [pair(4, 3, 15), pair(0, 1, NONE), pair(1, 2, NONE)];
    check_case::<Minutes>(heap, 5, calls.as_slice(), 3, Err(Refusal::Loop), &held)?;
    let calls = five(heap, &[Call::Withdraw(3, 2)])?;
    let opened = [
        pair(4, 3, 13),
        pair(0, 2, 7),
        pair(2, 2, NONE),
        pair(3, 2, NONE),
    ];
    check_case::<Minutes>(heap, 5, calls.as_slice(), 4, Ok(()), &opened)
}

#[test]
fn five_packages_reached(rt: HostRuntime) -> Result<(), Fail> {
    let heap = rt.alloc();
    let calls: Vec<_> = FIVE
        .iter()
        .map(|(from, to, _)| Call::Admit(*from, *to, 1))
        .collect(heap)?;
    let pairs = [pair(4, 3, 1), pair(2, 2, 1), pair(0, 0, 0), pair(3, 4, 0)];
    check_case::<Reach>(heap, 5, calls.as_slice(), 3, Err(Refusal::Loop), &pairs)
}

#[test]
fn longest_times(rt: HostRuntime) -> Result<(), Fail> {
    let calls = [
        Call::Admit(0, 1, 4294967290),
        Call::Admit(1, 2, 4),
        Call::Admit(2, 3, 5),
        Call::Admit(1, 3, 5),
    ];
    let pairs = [pair(0, 2, 4294967294), pair(0, 3, NONE), pair(1, 3, 5)];
    check_case::<Minutes>(rt.alloc(), 4, &calls, 2, Ok(()), &pairs)
}

#[test]
fn licences(rt: HostRuntime) -> Result<(), Fail> {
    let calls = [
        Call::Admit(0, 1, 3),
        Call::Admit(1, 2, 4),
        Call::Admit(0, 2, 6),
    ];
    let pairs = [pair(0, 2, 6), pair(1, 0, NONE)];
    check_case::<Licence>(rt.alloc(), 3, &calls, 1, Ok(()), &pairs)
}
