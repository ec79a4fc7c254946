// Sort: the strong components of the packages, called groups, in two depth-first searches.
ghost use Rattle.std.specs.Prelude.{◌≡◌, ◌≢◌, ℕ, ◌+◌, ◌*◌, ◌<◌, ◌≤◌, true, false, length, is_ok, slice_index};
ghost use Rattle.paths.specs.Groups.{groups, group_count, Grouped};
ghost use Rattle.catalogue.specs.Refusals.{answer};
ghost use Rattle.catalogue.specs.Meanings.{in_force};
ghost use Rattle.graphs.specs.Records.{of, Sorted};
ghost use Rattle.graphs.specs.Answers.{lacks, sort_answer};
ghost use Rattle.graphs.specs.Searches.{Graph, Edge, Finished, Classified, Rising, Lists, sorted_record};
ghost use Rattle.sorting.specs.Answers.{in_order_answer};

use crate::compressed::{Entries, make_rows};
use crate::search::{finish, visit};
use catalogue::{Catalogue, Refusal};
use graphs::{NO_WAVE, PackageRecord};

// Sorts the packages into groups, and answers how many there are: each package's record gets the
// name and the rank of its group, and no wave.
pub fn sort<C: Catalogue>(
    catalogue: &C,
    records: &mut [PackageRecord],
    words: &mut [u32],
) -> Result<u32, Refusal>
    ensures answers { answer result ≡ sort_answer (C.Catalogue.meaning catalogue.now) (length records.old) (length words.old) }
    ensures sorts { is_ok (answer result) ≡ true → Sorted (in_force (C.Catalogue.meaning catalogue.now)) (C.Catalogue.meaning catalogue.now).n records.old records.new }
    ensures keeps { is_ok (answer result) ≡ false → (records.new ≡ records.old) × (words.new ≡ words.old) }
    ensures grouped { Grouped (in_force (C.Catalogue.meaning catalogue.now)) (C.Catalogue.meaning catalogue.now).n (groups (in_force (C.Catalogue.meaning catalogue.now)) (C.Catalogue.meaning catalogue.now).n) }
{
    if lacks(catalogue, records.len(), words.len()) {
        return Err(Refusal::ShortBuffer);
    }
    let (order, spare) = words.split_at_mut(catalogue.n() as usize);
    Ok(sort_with(catalogue, records, order, spare))
}

// Are so many records, or so many work words, too few?
pub fn lacks<C: Catalogue>(catalogue: &C, records: usize, words: usize) -> bool
    ensures { result ≡ lacks (C.Catalogue.meaning catalogue.now) records words }
{
    let n = catalogue.n() as usize;
    records < n || words < 16 * n + catalogue.stock_len()
}

// Sorts, and leaves the packages in `order` by rising rank, if there are at least n records, n words
// of order and at least 4 × n + 1 + s spare ones.
pub fn sort_in_order<C: Catalogue>(
    catalogue: &C,
    records: &mut [PackageRecord],
    order: &mut [u32],
    spare: &mut [u32],
) -> Result<u32, Refusal>
    ensures answers { answer result ≡ in_order_answer (C.Catalogue.meaning catalogue.now) (length records.old) (length order.old) (length spare.old) }
    ensures sorted { is_ok (answer result) ≡ true → Sorted (in_force (C.Catalogue.meaning catalogue.now)) (C.Catalogue.meaning catalogue.now).n records.old records.new }
    ensures rising { is_ok (answer result) ≡ true → Rising records.new order.new (C.Catalogue.meaning catalogue.now).n }
    ensures listed { is_ok (answer result) ≡ true → Lists order.new (C.Catalogue.meaning catalogue.now).n }
    ensures keeps { is_ok (answer result) ≡ false → (records.new ≡ records.old) × (order.new ≡ order.old) × (spare.new ≡ spare.old) }
{
    let n = catalogue.n() as usize;
    if records.len() < n || order.len() != n || spare.len() < 4 * n + 1 + catalogue.stock_len() {
        return Err(Refusal::ShortBuffer);
    }
    Ok(sort_with(catalogue, records, order, spare))
}

// Sorts: along the arcs turned round first, then along the arcs, from the package left last.
// Answers the number of groups; the packages then stand in `order` by rising rank.
// Slices, and not a struct of them: no proof covers two fields of one lifetime lent at once.
fn sort_with<C: Catalogue>(
    catalogue: &C,
    records: &mut [PackageRecord],
    order: &mut [u32],
    spare: &mut [u32],
) -> u32
    requires records { (C.Catalogue.meaning catalogue.now).n ≤ length records.old }
    requires order { length order.old ≡ (C.Catalogue.meaning catalogue.now).n }
    requires spare { 4 * (C.Catalogue.meaning catalogue.now).n + 1 + length (C.Catalogue.meaning catalogue.now).stock ≤ length spare.old }
    ensures count { result ≡ group_count (in_force (C.Catalogue.meaning catalogue.now)) (C.Catalogue.meaning catalogue.now).n }
    ensures sorted { Sorted (in_force (C.Catalogue.meaning catalogue.now)) (C.Catalogue.meaning catalogue.now).n records.old records.new }
    ensures rising { Rising records.new order.new (C.Catalogue.meaning catalogue.now).n }
    ensures listed { Lists order.new (C.Catalogue.meaning catalogue.now).n }
{
    let n = catalogue.n() as usize;
    let (starts, spare) = spare.split_at_mut(n + 1);
    let (next, spare) = spare.split_at_mut(n);
    // 0 where a package is not visited yet
    let (marks, spare) = spare.split_at_mut(n);
    // the packages as the search along the arcs turned round left them
    let (finished, entries) = spare.split_at_mut(n);
    make_rows(catalogue, Entries::Sources, starts, next, entries);
    marks.fill(0);
    finish(starts, entries, marks, finished);
    make_rows(catalogue, Entries::Targets, starts, next, entries);
    marks.fill(0);
    group(starts, entries, finished, marks, order, records)
}

// The least of some packages.
fn lowest(packages: &[u32]) -> u32
    requires some { 0 < length packages.now }
    ensures found { (j : ℕ) × (j < length packages.now) × (slice_index packages.now j ≡ result) }
    ensures least { (j : ℕ) → j < length packages.now → result ≤ slice_index packages.now j }
{
    let mut least = packages[0];
    for &p in packages {
        if p < least {
            least = p;
        }
    }
    least
}

// The record that the packages of a group share.
fn shared(packages: &[u32], rank: u32) -> PackageRecord
    requires some { 0 < length packages.now }
    ensures is { result ≡ sorted_record result.group rank }
    ensures found { (j : ℕ) × (j < length packages.now) × (slice_index packages.now j ≡ result.group) }
    ensures least { (j : ℕ) → j < length packages.now → result.group ≤ slice_index packages.now j }
{
    PackageRecord {
        group: lowest(packages),
        rank,
        wave: NO_WAVE,
    }
}

// Enters the record that the packages of a group share for each of them.
fn enter_group(packages: &[u32], shared: PackageRecord, records: &mut [PackageRecord])
    requires inside { (j : ℕ) → j < length packages.now → slice_index packages.now j < length records.old }
    ensures entered { (j : ℕ) → j < length packages.now → of records.new (slice_index packages.now j) ≡ shared }
    ensures others { (v : ℕ) → ((j : ℕ) → j < length packages.now → slice_index packages.now j ≢ v) → of records.new v ≡ of records.old v }
{
    for &p in packages {
        records[p as usize] = shared;
    }
}

// The rank of the next group.
fn next_rank(rank: u32) -> u32
    requires { rank < 1024 }
    ensures { result ≡ rank + 1 }
{
    rank + 1
}

// Sorts the packages into groups: `finished` has them as the search along the arcs turned round
// left them. Answers the number of groups.
fn group(
    starts: &[u32],
    targets: &[u32],
    finished: &[u32],
    marks: &mut [u32],
    order: &mut [u32],
    records: &mut [PackageRecord],
) -> u32
    requires rows { Graph starts.now targets.now (length marks.old) }
    requires room { length marks.old ≤ length order.old }
    requires many { length marks.old ≤ length records.old }
    requires zeros { (v : ℕ) → slice_index marks.old v ≡ 0 }
    requires finished { Finished (Edge starts.now targets.now) (length marks.old) finished.now (length finished.now) }
    ensures sorted { Classified (Edge starts.now targets.now) (λ v. v < length marks.old) records.new result }
    ensures beyond { (v : ℕ) → length marks.old ≤ v → of records.new v ≡ of records.old v }
    ensures rising { Rising records.new order.new (length marks.old) }
    ensures listed { Lists order.new (length marks.old) }
{
    let mut count = 0;
    let mut rank = 0;
    for k in (0..finished.len()).rev() {
        let root = finished[k] as usize;
        if marks[root] == 0 {
            let next = visit(starts, targets, marks, order, count, root);
            let packages = &order[count..next];
            enter_group(packages, shared(packages, rank), records);
            count = next;
            rank = next_rank(rank);
        }
    }
    rank
}
