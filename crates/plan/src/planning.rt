// The plan itself: sorts, and plans over the groups.
ghost use Rattle.std.specs.Prelude.{◌≡◌, ℕ, ◌+◌, ◌*◌, ◌<◌, ◌≤◌, true, false, length, is_ok, Ok, Err, slice_index};
ghost use Rattle.catalogue.specs.Refusals.{answer};
ghost use Rattle.catalogue.specs.Meanings.{in_force};
ghost use Rattle.graphs.specs.Records.{of};
ghost use Rattle.graphs.specs.Answers.{lacks};
ghost use Rattle.plans.specs.Plans.{Planned, counts, bytes};
ghost use Rattle.plans.specs.Laws.{PlanLaws};
ghost use Rattle.plans.specs.Steps.{Falling};
ghost use Rattle.plans.specs.Answers.{package_answer, changed_answer, plan_answer, plan_leaves};
ghost use Rattle.plan.specs.Tables.{Leads, Rows};
ghost use Rattle.plan.specs.Planning.{Laid, Placed};

use crate::building::build;
use crate::condensed::{Condensed, name_ranks};
use crate::marking::mark;
use crate::tally::tally;
use crate::waves::fill_waves;
use catalogue::{Catalogue, Refusal, outside};
use graphs::PackageRecord;
use plans::PlanCounts;
use sorting::{Entries, fill_rows, lacks, sort};

// Plans for the changed packages: sorts, fills the set table, and enters the waves into the records.
#[tactic(auto, using(crate::proofs::Plannings::planned_first))]
pub fn plan<C: Catalogue>(
    catalogue: &C,
    changed: &[u32],
    records: &mut [PackageRecord],
    words: &mut [u32],
    sets: &mut [u8],
) -> Result<PlanCounts, Refusal>
    ensures answers { answer result ≡ plan_answer (C.Catalogue.meaning catalogue.now) changed.now (length sets.old) (length records.old) (length words.old) }
    ensures leaves { sets.new ≡ plan_leaves (C.Catalogue.meaning catalogue.now) changed.now (answer result) sets.old }
    ensures plans { is_ok (answer result) ≡ true → Planned (in_force (C.Catalogue.meaning catalogue.now)) (C.Catalogue.meaning catalogue.now).n changed.now records.old records.new }
    ensures keeps { is_ok (answer result) ≡ false → (records.new ≡ records.old) × (words.new ≡ words.old) }
    ensures lawful { is_ok (answer result) ≡ true → PlanLaws (in_force (C.Catalogue.meaning catalogue.now)) (C.Catalogue.meaning catalogue.now).n changed.now }
{
    let n = catalogue.n() as usize;
    if sets.len() < n * n || lacks(catalogue, records.len(), words.len()) {
        return Err(Refusal::ShortBuffer);
    }
    known(catalogue, changed)?;
    plan_with(
        catalogue,
        changed,
        &mut records[..n],
        words,
        &mut sets[..n * n],
    )
}

// Refuses, number by number, a changed package that is none or that is held.
#[tactic(auto, using(plans::proofs::Changed::changed_more, plans::proofs::Changed::changed_stops))]
fn known<C: Catalogue>(catalogue: &C, changed: &[u32]) -> Result<(), Refusal>
    ensures { answer result ≡ changed_answer (C.Catalogue.meaning catalogue.now) changed.now }
{
    for p in changed {
        can_change(catalogue, *p)?;
    }
    Ok(())
}

// Refuses what is no package, or is held.
fn can_change<C: Catalogue>(catalogue: &C, p: u32) -> Result<(), Refusal>
    ensures { answer result ≡ package_answer (C.Catalogue.meaning catalogue.now) p }
{
    if outside(catalogue.n(), p) {
        return Err(Refusal::NoPackage);
    }
    if catalogue.is_held(p) {
        return Err(Refusal::Held);
    }
    Ok(())
}

// Plans where the changed packages are known and the buffers have the lengths that are wanted.
fn plan_with<C: Catalogue>(
    catalogue: &C,
    changed: &[u32],
    records: &mut [PackageRecord],
    words: &mut [u32],
    sets: &mut [u8],
) -> Result<PlanCounts, Refusal>
    requires known { changed_answer (C.Catalogue.meaning catalogue.now) changed.now ≡ Ok tt }
    requires room { lacks (C.Catalogue.meaning catalogue.now) (length records.old) (length words.old) ≡ false }
    requires records { length records.old ≡ (C.Catalogue.meaning catalogue.now).n }
    requires table { length sets.old ≡ (C.Catalogue.meaning catalogue.now).n * (C.Catalogue.meaning catalogue.now).n }
    ensures answers { answer result ≡ Ok (counts (in_force (C.Catalogue.meaning catalogue.now)) (C.Catalogue.meaning catalogue.now).n changed.now) }
    ensures sets { sets.new ≡ bytes (in_force (C.Catalogue.meaning catalogue.now)) (C.Catalogue.meaning catalogue.now).n changed.now }
    ensures records { Placed (in_force (C.Catalogue.meaning catalogue.now)) (C.Catalogue.meaning catalogue.now).n changed.now records.old records.new }
    ensures lawful { PlanLaws (in_force (C.Catalogue.meaning catalogue.now)) (C.Catalogue.meaning catalogue.now).n changed.now }
{
    let n = catalogue.n() as usize;
    let groups = sort(catalogue, records, words)? as usize;
    let (starts, spare) = words.split_at_mut(n + 1);
    let (next, spare) = spare.split_at_mut(n);
    let (targets, spare) = spare.split_at_mut(catalogue.stock_len());
    fill_rows(catalogue, Entries::Ranks(records), starts, next, targets)?;
    let condensed = Condensed {
        starts: &starts[..groups + 1],
        targets,
    };
    plan_groups(&condensed, groups, changed, records, spare, sets);
    Ok(tally(catalogue, records, sets))
}

// Plans over the graph of the groups.
fn plan_groups(
    condensed: &Condensed,
    groups: usize,
    changed: &[u32],
    records: &mut [PackageRecord],
    spare: &mut [u32],
    sets: &mut [u8],
)
    requires rows { Rows condensed.now groups }
    requires few { length records.old ≤ 1024 }
    requires falling { Falling (Leads condensed.now) groups }
    requires ranks { (p : ℕ) → p < length records.old → (of records.old p).rank < groups }
    requires used { (k : ℕ) → k < groups → (p : ℕ) × (p < length records.old) × ((of records.old p).rank ≡ k) }
    requires same { (p q : ℕ) → p < length records.old → q < length records.old → (of records.old p).rank ≡ (of records.old q).rank → (of records.old p).group ≡ (of records.old q).group }
    requires apart { (p q : ℕ) → p < length records.old → q < length records.old → (of records.old p).group ≡ (of records.old q).group → (of records.old p).rank ≡ (of records.old q).rank }
    requires inside { (p : ℕ) → p < length records.old → (of records.old p).group < length records.old }
    requires known { (k : ℕ) → k < length changed.now → slice_index changed.now k < length records.old }
    requires room { 4 * groups + length records.old ≤ length spare.old }
    requires table { length sets.old ≡ length records.old * length records.old }
    ensures { Laid (Leads condensed.now) groups (length records.old) changed.now records.old records.new sets.new }
{
    let (live, spare) = spare.split_at_mut(groups);
    let (names, spare) = spare.split_at_mut(groups);
    let (flags, spare) = spare.split_at_mut(groups);
    let (waves, spare) = spare.split_at_mut(groups);
    let row = &mut spare[..records.len()];
    mark(condensed, records, changed, live);
    name_ranks(records, names);
    build(condensed, live, names, flags, row, waves, sets);
    fill_waves(records, live, waves);
}
