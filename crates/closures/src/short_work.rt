// Sort and closing by order with buffers that are too short, and with just enough.
use crate::scenes::PLACES;
use crate::short::{check_numbered, numbered};
use cases::{blank, check, check_eq, empty_ledger};
use catalogue::{Catalogue, Holding, Layer, Refusal};
use closing::{PackageRecord, by_order, sort};
use labels::Minutes;
use std::alloc::{AllocError, Global};
use std::test::Fail;

// A record that differs from those of other numbers.
pub(crate) fn marked(p: u32) -> PackageRecord {
    PackageRecord {
        group: p,
        rank: p ^ 100,
        wave: p ^ 200,
    }
}

pub(crate) fn records_of(heap: Global, len: u32) -> Result<Vec<PackageRecord>, AllocError> {
    (0..len).map(marked).collect(heap)
}

pub(crate) fn check_marked(records: &[PackageRecord], len: u32) -> Result<(), Fail> {
    check(records.iter().copied().eq((0..len).map(marked)))
}

// Does sort answer, in so many records and words, that a buffer is too short?
fn check_sort<C: Catalogue>(c: &C, heap: Global, records: u32, words: u32) -> Result<(), Fail> {
    let mut sorted = records_of(heap, records)?;
    let mut work: Vec<u32> = (0..words).collect(heap)?;
    let answer = sort(c, sorted.as_mut_slice(), work.as_mut_slice());
    check_eq(answer, Err(Refusal::ShortBuffer))?;
    check_marked(sorted.as_slice(), records)?;
    check(work.iter().copied().eq(0..words))
}

// The same of closing by order, in so many cells too.
fn check_order<C: Catalogue<Label = Minutes>>(
    c: &C,
    heap: Global,
    (cells, records, words): (u32, u32, u32),
) -> Result<(), Fail> {
    let mut table = numbered(heap, 0..cells)?;
    let mut sorted = records_of(heap, records)?;
    let mut work: Vec<u32> = (0..words).collect(heap)?;
    let answer = by_order(
        c,
        table.as_mut_slice(),
        sorted.as_mut_slice(),
        work.as_mut_slice(),
    );
    check_eq(answer, Err(Refusal::ShortBuffer))?;
    check_numbered(table.as_slice(), 0..cells)?;
    check_marked(sorted.as_slice(), records)?;
    check(work.iter().copied().eq(0..words))
}

// On 3 packages with 3 arcs: sort takes 3 records and 51 words, and closing by order 9 cells too.
fn check_short<C: Catalogue<Label = Minutes>>(c: &C, heap: Global) -> Result<(), Fail> {
    check_sort(c, heap, 2, 51)?;
    check_sort(c, heap, 3, 50)?;
    check_sort(c, heap, 0, 80)?;
    check_sort(c, heap, 20, 0)?;
    check_order(c, heap, (8, 3, 51))?;
    check_order(c, heap, (9, 2, 51))?;
    check_order(c, heap, (9, 3, 50))?;
    check_order(c, heap, (0, 20, 80))?;
    check_order(c, heap, (20, 0, 80))?;
    check_order(c, heap, (20, 20, 0))
}

// What both answer with just enough.
fn check_enough<C: Catalogue<Label = Minutes>>(
    c: &C,
    heap: Global,
    groups: u32,
    ordered: Result<(), Refusal>,
) -> Result<(), Fail> {
    let mut records = records_of(heap, 3)?;
    let mut words: Vec<u32> = (0..51).collect(heap)?;
    check_eq(
        sort(c, records.as_mut_slice(), words.as_mut_slice()),
        Ok(groups),
    )?;
    let mut table = numbered(heap, 0..9)?;
    let answer = by_order(
        c,
        table.as_mut_slice(),
        records.as_mut_slice(),
        words.as_mut_slice(),
    );
    check_eq(answer, ordered)
}

// The words are counted by the stock, also where a hold hides some of its arcs.
#[test]
fn straight(rt: HostRuntime) -> Result<(), Fail> {
    let heap = rt.alloc();
    let mut arcs = blank(heap, PLACES)?;
    let mut top = Holding::over(empty_ledger(3, arcs.as_mut_slice())?);
    top.admit(0, 1, Minutes { value: 4 })?;
    top.admit(1, 2, Minutes { value: 3 })?;
    top.admit(0, 2, Minutes { value: 9 })?;
    check_short(&top, heap)?;
    check_enough(&top, heap, 3, Ok(()))?;
    top.hold(1)?;
    check_short(&top, heap)?;
    check_enough(&top, heap, 3, Ok(()))
}

// With a loop, too.
#[test]
fn looped(rt: HostRuntime) -> Result<(), Fail> {
    let heap = rt.alloc();
    let mut arcs = blank(heap, PLACES)?;
    let mut ledger = empty_ledger(3, arcs.as_mut_slice())?;
    ledger.admit(0, 1, Minutes { value: 4 })?;
    ledger.admit(1, 2, Minutes { value: 3 })?;
    ledger.admit(1, 0, Minutes { value: 9 })?;
    check_short(&ledger, heap)?;
    check_enough(&ledger, heap, 2, Err(Refusal::Loop))
}
