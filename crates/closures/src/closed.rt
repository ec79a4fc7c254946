// A catalogue's closings beside the labels of its chains.
use crate::chains::Chains;
use crate::kinds::Kind;
use cases::{check, check_eq};
use catalogue::Catalogue;
use closing::{by_elimination, by_rounds, label_of, row};
use labels::Label;
use std::alloc::{AllocError, Global};
use std::test::Fail;

// More cells than the closings of 10 packages need.
const CELLS: usize = 105;

// The label that a word names, or none.
pub(crate) fn label<K: Label>(word: u32) -> K {
    K::from_word(word).unwrap_or(K::NONE)
}

// What stands in a table before it is written to.
pub(crate) fn unwritten<K: Label>(heap: Global) -> Result<Vec<K>, AllocError> {
    Ok(vec![in heap; K::WHOLE; CELLS]?)
}

// The label of every pair in its cell, and the cells behind them unwritten.
fn check_table<K: Kind>(table: &[K], chains: &Chains<K>) -> Result<(), Fail> {
    let n = chains.n();
    let mut cells = table.iter();
    check((0..n).all(|i| (0..n).all(|j| cells.next() == Some(&label(chains.word(i, j))))))?;
    check(cells.all(|cell| *cell == K::WHOLE))
}

// The rows of a table, each as long as there are packages.
fn check_rows<K: Kind>(table: &[K], chains: &Chains<K>) -> Result<(), Fail> {
    let n = chains.n();
    // by number: that is how a row is asked for
    for p in 0..n {
        let cells = row(table, n, p)?.iter().copied();
        check(cells.eq((0..n).map(|j| label(chains.word(p, j)))))?;
    }
    Ok(())
}

// The label of each pair, one by one.
fn check_labels<K: Kind, C: Catalogue<Label = K>>(
    c: &C,
    table: &mut [K],
    chains: &Chains<K>,
) -> Result<(), Fail> {
    // by number: a pair is asked for so, and each question can be refused
    for i in 0..chains.n() {
        for j in 0..chains.n() {
            check(label_of(c, table, i, j)? == label(chains.word(i, j)))?;
        }
    }
    Ok(())
}

// Closes by rounds and by elimination; answers the table of the labels.
pub(crate) fn check_closed<K: Kind, C: Catalogue<Label = K>>(
    heap: Global,
    c: &C,
    chains: &Chains<K>,
) -> Result<Vec<K>, Fail> {
    let mut table = unwritten(heap)?;
    let mut changed = unwritten(heap)?;
    let mut found = unwritten(heap)?;
    let rounds = by_rounds(
        c,
        table.as_mut_slice(),
        changed.as_mut_slice(),
        found.as_mut_slice(),
    )?;
    check_eq(Some(rounds), chains.rounds())?;
    check_table(table.as_slice(), chains)?;
    check_rows(table.as_slice(), chains)?;
    let mut table = unwritten(heap)?;
    by_elimination(c, table.as_mut_slice())?;
    check_table(table.as_slice(), chains)?;
    check_labels(c, table.as_mut_slice(), chains)?;
    check_table(table.as_slice(), chains)?;
    Ok(table)
}
