// Buffers that are too short, and the refusals of a row.
use crate::scenes::PLACES;
use cases::{blank, check, check_eq, empty_ledger};
use catalogue::{Catalogue, Refusal};
use closing::{by_elimination, by_rounds, label_of, row};
use labels::Minutes;
use std::alloc::{AllocError, Global};
use std::fmt::Debug;
use std::ops::Range;
use std::test::Fail;

// Cells that all differ.
pub(crate) fn numbered(heap: Global, values: Range<u32>) -> Result<Vec<Minutes>, AllocError> {
    values.map(|value| Minutes { value }).collect(heap)
}

pub(crate) fn check_numbered(cells: &[Minutes], values: Range<u32>) -> Result<(), Fail> {
    check(cells.iter().map(|cell| cell.value).eq(values))
}

// Closes into tables of so many cells, too few in one of them.
fn check_short<C: Catalogue<Label = Minutes>>(
    c: &C,
    heap: Global,
    (table_cells, changed_cells, found_cells): (u32, u32, u32),
) -> Result<(), Fail> {
    let mut table = numbered(heap, 0..table_cells)?;
    let mut changed = numbered(heap, 0..changed_cells)?;
    let mut found = numbered(heap, 0..found_cells)?;
    let answer = by_rounds(
        c,
        table.as_mut_slice(),
        changed.as_mut_slice(),
        found.as_mut_slice(),
    );
    check_eq(answer, Err(Refusal::ShortBuffer))?;
    check_numbered(table.as_slice(), 0..table_cells)?;
    check_numbered(changed.as_slice(), 0..changed_cells)?;
    check_numbered(found.as_slice(), 0..found_cells)
}

#[test]
fn short_tables(rt: HostRuntime) -> Result<(), Fail> {
    let heap = rt.alloc();
    let mut arcs = blank(heap, PLACES)?;
    let mut ledger = empty_ledger(3, arcs.as_mut_slice())?;
    ledger.admit(0, 1, Minutes { value: 4 })?;
    ledger.admit(1, 2, Minutes { value: 3 })?;
    check_short(&ledger, heap, (8, 9, 9))?;
    check_short(&ledger, heap, (9, 8, 9))?;
    check_short(&ledger, heap, (9, 9, 8))?;
    check_short(&ledger, heap, (0, 30, 30))?;
    let mut table = numbered(heap, 0..8)?;
    assert_eq!(rt;
        by_elimination(&ledger, table.as_mut_slice()),
        Err(Refusal::ShortBuffer)
    );
    check_numbered(table.as_slice(), 0..8)?;
    assert_eq!(rt;
        label_of(&ledger, table.as_mut_slice(), 0, 1),
        Err(Refusal::ShortBuffer)
    );
    check_numbered(table.as_slice(), 0..8)?;
    let mut table = numbered(heap, 0..9)?;
    assert_eq!(rt;
        label_of(&ledger, table.as_mut_slice(), 0, 3),
        Err(Refusal::NoPackage)
    );
    assert_eq!(rt;
        label_of(&ledger, table.as_mut_slice(), 3, 0),
        Err(Refusal::NoPackage)
    );
    check_numbered(table.as_slice(), 0..9)?;
    Ok(())
}

// The refusals of a row, where 3 packages need one cell more than `short` has.
fn check_rows<T: PartialEq + Debug>(short: &[T], table: &[T]) -> Result<(), Fail> {
    check_eq(row(short, 0, 9), Err(Refusal::BadCount))?;
    check_eq(row(short, 1025, 9), Err(Refusal::BadCount))?;
    check_eq(row(table, 1024, 0), Err(Refusal::ShortBuffer))?;
    check_eq(row(short, 3, 9), Err(Refusal::ShortBuffer))?;
    check_eq(row(short, 3, 0), Err(Refusal::ShortBuffer))?;
    check_eq(row(table, 3, 3), Err(Refusal::NoPackage))?;
    check(row(table, 3, 2).is_ok())?;
    Ok(())
}

#[test]
fn rows(rt: HostRuntime) -> Result<(), Fail> {
    let bytes = [0u8, 1, 2, 3, 4, 5, 6, 7, 8];
    check_rows(&[0u8; 8], &bytes)?;
    assert_eq!(rt; row(&bytes, 3, 1), Ok([3u8, 4, 5].as_slice()));
    let heap = rt.alloc();
    let short = numbered(heap, 0..8)?;
    let table = numbered(heap, 0..9)?;
    check_rows(short.as_slice(), table.as_slice())?;
    Ok(())
}
