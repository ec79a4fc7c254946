// What sort leaves, beside the groups by the rules alone.
use crate::groups::Groups;
use cases::{check, check_eq};
use catalogue::Catalogue;
use closing::{PackageRecord, sort};
use paths::Arc;
use std::alloc::{AllocError, Global};
use std::test::Fail;

// What stands in a record before it is written to.
pub(crate) const UNSORTED: PackageRecord = PackageRecord {
    group: 7777,
    rank: 8888,
    wave: 9999,
};

// More records than the packages of the scenes.
const RECORDS: usize = 15;

pub(crate) fn unsorted(heap: Global) -> Result<Vec<PackageRecord>, AllocError> {
    Ok(vec![in heap; UNSORTED; RECORDS]?)
}

// As many work words as sort needs, with all bits set.
pub(crate) fn work<C: Catalogue>(heap: Global, c: &C) -> Result<Vec<u32>, AllocError> {
    Ok(vec![in heap; u32::MAX; words_for(c)]?)
}

pub(crate) fn words_for<C: Catalogue>(c: &C) -> usize {
    let packages = c.n() as usize;
    packages.saturating_mul(16).saturating_add(c.stock_len())
}

pub(crate) fn record(records: &[PackageRecord], p: u32) -> PackageRecord {
    records.get(p as usize).copied().unwrap_or(UNSORTED)
}

fn rank(records: &[PackageRecord], p: u32) -> u32 {
    record(records, p).rank
}

// Do the two have one rank?
fn alike(records: &[PackageRecord], p: u32, q: u32) -> bool {
    rank(records, p) == rank(records, q)
}

// The rank of each package: equal within a group alone, each number below that of the groups, and
// lower along each arc between groups.
fn check_ranks(records: &[PackageRecord], groups: &Groups, arcs: &[Arc<u32>]) -> Result<(), Fail> {
    let n = groups.n();
    check((0..n).all(|p| (0..n).all(|q| alike(records, p, q) == groups.together(p, q))))?;
    check((0..n).all(|p| (rank(records, p) as usize) < groups.len()))?;
    check((0..groups.len()).all(|k| (0..n).any(|p| rank(records, p) as usize == k)))?;
    check(
        arcs.iter().all(|arc| {
            groups.together(arc.from, arc.to) || rank(records, arc.to) < rank(records, arc.from)
        }),
    )
}

// The record of every package, and those behind them unwritten.
pub(crate) fn check_sorted(
    records: &[PackageRecord],
    groups: &Groups,
    arcs: &[Arc<u32>],
) -> Result<(), Fail> {
    check((0..groups.n()).all(|p| record(records, p).wave == 4294967295))?;
    check_grouped(records, groups, arcs)
}

// The same, whatever the waves are.
pub(crate) fn check_grouped(
    records: &[PackageRecord],
    groups: &Groups,
    arcs: &[Arc<u32>],
) -> Result<(), Fail> {
    let n = groups.n();
    check((0..n).all(|p| record(records, p).group == groups.name(p)))?;
    check_ranks(records, groups, arcs)?;
    let mut spare = records.iter().skip(n as usize);
    check(spare.all(|record| *record == UNSORTED))
}

// Sorts, where these arcs are in force and make these groups.
pub(crate) fn check_sort<C: Catalogue>(
    heap: Global,
    c: &C,
    arcs: &[Arc<u32>],
    groups: &Groups,
) -> Result<(), Fail> {
    let mut records = unsorted(heap)?;
    let mut words = work(heap, c)?;
    let answer = sort(c, records.as_mut_slice(), words.as_mut_slice())?;
    check_eq(answer as usize, groups.len())?;
    check_sorted(records.as_slice(), groups, arcs)
}
