// The counts of a plan, of the records and the set table that it leaves.
ghost use Rattle.std.specs.Prelude.{◌≡◌, ℕ, ◌+◌, ◌<◌, ◌≤◌, false, cond, not, ◌&&◌, List, filter, length, count_by, ◌==◌};
ghost use Rattle.std.specs.List.{range_with_len};
ghost use Rattle.std.specs.Option.{option_map_or};
ghost use Rattle.catalogue.specs.Meanings.{in_force};
ghost use Rattle.catalogue.specs.Calls.{arc_at};
ghost use Rattle.graphs.specs.Records.{no_wave};
ghost use Rattle.plans.specs.Plans.{counts};
ghost use Rattle.plan.specs.Planning.{Filled};
ghost use Rattle.plan.specs.Tally.{named_jobs, waves_told, taken, Countable, counted};

use catalogue::Catalogue;
use graphs::{NO_WAVE, PackageRecord};
use paths::Arc;
use plans::PlanCounts;

// The counts of the plan that the records and the set table are of.
pub(crate) fn tally<C: Catalogue>(
    catalogue: &C,
    records: &[PackageRecord],
    sets: &[u8],
) -> PlanCounts
    requires { (changed : List ℕ) × Filled (in_force (C.Catalogue.meaning catalogue.now)) (C.Catalogue.meaning catalogue.now).n changed records.now sets.now }
    ensures { (changed : List ℕ) → Filled (in_force (C.Catalogue.meaning catalogue.now)) (C.Catalogue.meaning catalogue.now).n changed records.now sets.now → result ≡ counts (in_force (C.Catalogue.meaning catalogue.now)) (C.Catalogue.meaning catalogue.now).n changed }
{
    counted(catalogue, records, sets)
}

// What is counted, of records and a set table that need not be a plan's.
fn counted<C: Catalogue>(catalogue: &C, records: &[PackageRecord], sets: &[u8]) -> PlanCounts
    requires { Countable (C.Catalogue.meaning catalogue.now) records.now sets.now }
    ensures { result ≡ counted (in_force (C.Catalogue.meaning catalogue.now)) records.now sets.now }
{
    let merged = count_waits(sets);
    PlanCounts {
        jobs: count_jobs(records),
        waves: count_waves(records),
        merged,
        skipped: count_arcs(catalogue, records, false) - merged,
        inner: count_arcs(catalogue, records, true),
    }
}

// How many bytes of the set table say that a job waits for another.
fn count_waits(sets: &[u8]) -> u32
    requires { length sets.now ≤ 1048576 }
    ensures { result ≡ count_by (λ byte. byte == 2) sets.now }
{
    sets.iter().filter(|byte| **byte == 2).count() as u32
}

// Is this the record of a job's name, package `p`?
fn names_job(own: &PackageRecord, p: usize) -> bool
    ensures { result ≡ (not (own.now.wave == no_wave) && own.now.group == p) }
{
    own.wave != NO_WAVE && own.group as usize == p
}

// How many jobs the records name.
fn count_jobs(records: &[PackageRecord]) -> u32
    requires { length records.now ≤ 1024 }
    ensures { result ≡ length (named_jobs records.now) }
{
    (0..records.len())
        .filter(|p| names_job(&records[*p], *p))
        .count() as u32
}

// One more than the largest wave of a job, or 0.
#[tactic(auto, using(crate::proofs::Counting::told_more))]
fn count_waves(records: &[PackageRecord]) -> u32
    ensures { result ≡ waves_told records.now }
{
    let mut waves = 0;
    for (p, record) in records.iter().enumerate() {
        waves = waves.max(wave_end(record, p));
    }
    waves
}

// One more than the wave of package `p`, if it is a job's name, else 0.
fn wave_end(own: &PackageRecord, p: usize) -> u32
    ensures { result ≡ cond (not (own.now.wave == no_wave) && own.now.group == p) (own.now.wave + 1) 0 }
{
    if names_job(own, p) { own.wave + 1 } else { 0 }
}

// Is an arc in the plan and, as asked, within a job or between two?
fn takes<K>(arc: &Arc<K>, records: &[PackageRecord], within: bool) -> bool
    requires from { arc.now.from < length records.now }
    requires to { arc.now.to < length records.now }
    ensures { result ≡ taken records.now within arc.now }
{
    let from = records[arc.from as usize];
    let to = records[arc.to as usize];
    from.wave != NO_WAVE && to.wave != NO_WAVE && (from.group == to.group) == within
}

// The same of the arc at a place of the stock, if it is in force.
fn takes_at<C: Catalogue>(catalogue: &C, k: usize, records: &[PackageRecord], within: bool) -> bool
    requires { (C.Catalogue.meaning catalogue.now).n ≤ length records.now }
    ensures { result ≡ option_map_or (taken records.now within) (arc_at (C.Catalogue.meaning catalogue.now) k) false }
{
    match catalogue.arc_at(k) {
        Some(arc) => takes(&arc, records, within),
        None => false,
    }
}

// How many arcs in force are in the plan and, as asked, within a job or between two.
fn count_arcs<C: Catalogue>(catalogue: &C, records: &[PackageRecord], within: bool) -> u32
    requires { (C.Catalogue.meaning catalogue.now).n ≤ length records.now }
    ensures { result ≡ length (filter (taken records.now within) (in_force (C.Catalogue.meaning catalogue.now))) }
{
    count_places(catalogue, records, within)
}

// At how many places of the stock there is such an arc.
fn count_places<C: Catalogue>(catalogue: &C, records: &[PackageRecord], within: bool) -> u32
    requires { (C.Catalogue.meaning catalogue.now).n ≤ length records.now }
    ensures { result ≡ length (filter (λ k. option_map_or (taken records.now within) (arc_at (C.Catalogue.meaning catalogue.now) k) false) (range_with_len 0 (length (C.Catalogue.meaning catalogue.now).stock))) }
{
    (0..catalogue.stock_len())
        .filter(|k| takes_at(catalogue, *k, records, within))
        .count() as u32
}
