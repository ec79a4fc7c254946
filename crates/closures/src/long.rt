// The most packages there can be, in one chain or one loop: the searches go as deep as they can.
use crate::worked::NONE;
use cases::{blank, check, check_eq, empty_ledger};
use catalogue::{Catalogue, Ledger, Refusal};
use closing::{PackageRecord, by_elimination, by_order, by_rounds, label_of, sort};
use labels::Minutes;
use std::alloc::{AllocError, Global};
use std::test::Fail;

pub(crate) const PACKAGES: u32 = 1024;

pub(crate) const MOST: usize = 1024;

pub(crate) const CELLS: usize = 1048576;

// What stands in a table before it is written to.
const UNWRITTEN: Minutes = Minutes { value: 7777 };

// To which neighbour each package has an arc.
#[derive(Clone, Copy)]
pub enum Chain {
    Up,
    Down,
}

// 1 + 2 + .. + p
fn sum_to(p: u32) -> u32 {
    p.saturating_mul(p.saturating_add(1)) / 2
}

impl Chain {
    // Admits its arcs: that between p − 1 and p takes p minutes.
    fn admit<C: Catalogue<Label = Minutes>>(self, c: &mut C) -> Result<(), Refusal> {
        for p in 1..PACKAGES {
            let before = p.saturating_sub(1);
            let (from, to) = match self {
                Chain::Up => (before, p),
                Chain::Down => (p, before),
            };
            c.admit(from, to, Minutes { value: p })?;
        }
        Ok(())
    }

    // The minutes from one package to another: the sum of those of the arcs between.
    fn minutes(self, from: u32, to: u32) -> u32 {
        let (low, high) = match self {
            Chain::Up => (from, to),
            Chain::Down => (to, from),
        };
        if low < high {
            sum_to(high).saturating_sub(sum_to(low))
        } else {
            NONE
        }
    }

    // The package to which all others lead.
    pub(crate) fn last(self) -> u32 {
        match self {
            Chain::Up => PACKAGES.saturating_sub(1),
            Chain::Down => 0,
        }
    }

    // How many arcs lead from one package to another, one on the other.
    pub(crate) fn steps(self, from: u32, to: u32) -> u32 {
        match self {
            Chain::Up => to.saturating_sub(from),
            Chain::Down => from.saturating_sub(to),
        }
    }

    // Each is a group; the last has rank 0.
    pub(crate) fn record(self, p: u32) -> PackageRecord {
        PackageRecord {
            group: p,
            rank: self.steps(p, self.last()),
            wave: 4294967295,
        }
    }

    fn check_records(self, records: &[PackageRecord]) -> Result<(), Fail> {
        check(
            records
                .iter()
                .copied()
                .eq((0..PACKAGES).map(|p| self.record(p))),
        )
    }

    fn check_table(self, table: &[Minutes]) -> Result<(), Fail> {
        let mut cells = table.iter().map(|cell| cell.value);
        check((0..PACKAGES).all(|from| {
            (0..PACKAGES).all(|to| cells.next() == Some(self.minutes(from, to)))
        }))
    }
}

fn unwritten(heap: Global) -> Result<Vec<Minutes>, AllocError> {
    Ok(vec![in heap; UNWRITTEN; CELLS]?)
}

pub(crate) fn unsorted(heap: Global) -> Result<Vec<PackageRecord>, AllocError> {
    let record = PackageRecord {
        group: 0,
        rank: 0,
        wave: 0,
    };
    Ok(vec![in heap; record; MOST]?)
}

// As many as sort needs where there are so many arcs.
pub(crate) fn work(heap: Global, arcs: usize) -> Result<Vec<u32>, AllocError> {
    let words = MOST.saturating_mul(16).saturating_add(arcs);
    Ok(vec![in heap; u32::MAX; words]?)
}

fn check_sort(heap: Global, c: &Ledger<'_, Minutes>, chain: Chain) -> Result<(), Fail> {
    let mut records = unsorted(heap)?;
    let mut words = work(heap, c.stock_len())?;
    check_eq(
        sort(c, records.as_mut_slice(), words.as_mut_slice()),
        Ok(PACKAGES),
    )?;
    chain.check_records(records.as_slice())
}

fn check_order(heap: Global, c: &Ledger<'_, Minutes>, chain: Chain) -> Result<(), Fail> {
    let mut table = unwritten(heap)?;
    let mut records = unsorted(heap)?;
    let mut words = work(heap, c.stock_len())?;
    by_order(
        c,
        table.as_mut_slice(),
        records.as_mut_slice(),
        words.as_mut_slice(),
    )?;
    chain.check_records(records.as_slice())?;
    chain.check_table(table.as_slice())
}

fn check_elimination(heap: Global, c: &Ledger<'_, Minutes>, chain: Chain) -> Result<(), Fail> {
    let mut table = unwritten(heap)?;
    by_elimination(c, table.as_mut_slice())?;
    chain.check_table(table.as_slice())?;
    let label = label_of(c, table.as_mut_slice(), 0, 1023)?;
    check_eq(label.value, chain.minutes(0, 1023))
}

fn check_rounds(heap: Global, c: &Ledger<'_, Minutes>, chain: Chain) -> Result<(), Fail> {
    let mut table = unwritten(heap)?;
    let mut changed = unwritten(heap)?;
    let mut found = unwritten(heap)?;
    let rounds = by_rounds(
        c,
        table.as_mut_slice(),
        changed.as_mut_slice(),
        found.as_mut_slice(),
    );
    check_eq(rounds, Ok(1023))?;
    chain.check_table(table.as_slice())
}

// Makes a check on a ledger with the arcs of each chain.
pub(crate) fn check_chains<F: Fn(Global, &Ledger<'_, Minutes>, Chain) -> Result<(), Fail>>(
    heap: Global,
    check_one: F,
) -> Result<(), Fail>
    requires { F.IsAlwaysCallable check_one }
{
    for chain in [Chain::Up, Chain::Down] {
        let mut arcs = blank(heap, MOST)?;
        let mut ledger = empty_ledger(PACKAGES, arcs.as_mut_slice())?;
        chain.admit(&mut ledger)?;
        check_one(heap, &ledger, chain)?;
    }
    Ok(())
}

#[test]
fn sorted(rt: HostRuntime) -> Result<(), Fail> {
    check_chains(rt.alloc(), check_sort)
}

#[test]
fn ordered(rt: HostRuntime) -> Result<(), Fail> {
    check_chains(rt.alloc(), check_order)
}

#[test]
fn eliminated(rt: HostRuntime) -> Result<(), Fail> {
    check_chains(rt.alloc(), check_elimination)
}

#[test]
fn rounds(rt: HostRuntime) -> Result<(), Fail> {
    check_chains(rt.alloc(), check_rounds)
}

// All in one group, of rank 0.
fn check_one_group(records: &[PackageRecord]) -> Result<(), Fail> {
    let record = PackageRecord {
        group: 0,
        rank: 0,
        wave: 4294967295,
    };
    check(records.iter().all(|of| *of == record))
}

#[test]
fn one_loop(rt: HostRuntime) -> Result<(), Fail> {
    let heap = rt.alloc();
    let mut arcs = blank(heap, MOST)?;
    let mut ledger = empty_ledger(PACKAGES, arcs.as_mut_slice())?;
    Chain::Up.admit(&mut ledger)?;
    ledger.admit(1023, 0, Minutes { value: 1 })?;
    let mut records = unsorted(heap)?;
    let mut words = work(heap, MOST)?;
    let answer = sort(&ledger, records.as_mut_slice(), words.as_mut_slice());
    check_eq(answer, Ok(1))?;
    check_one_group(records.as_slice())?;
    let mut table = unwritten(heap)?;
    let mut records = unsorted(heap)?;
    let answer = by_order(
        &ledger,
        table.as_mut_slice(),
        records.as_mut_slice(),
        words.as_mut_slice(),
    );
    check_eq(answer, Err(Refusal::Loop))?;
    check_one_group(records.as_slice())?;
    check(table.iter().all(|cell| *cell == UNWRITTEN))
}
