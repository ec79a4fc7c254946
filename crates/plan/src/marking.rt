// Marks the groups in the plan.
ghost use Rattle.std.specs.Prelude.{ℕ, ◌≡◌, ◌<◌, length, slice_index};
ghost use Rattle.std.specs.List.{All};
ghost use Rattle.graphs.specs.Records.{of};
ghost use Rattle.graphs.specs.Searches.{Marked};
ghost use Rattle.plans.specs.Steps.{Falling, Spreads};
ghost use Rattle.plan.specs.Tables.{Leads, Rows, Seed, Follows};

use crate::condensed::Condensed;
use graphs::PackageRecord;

// Marks the ranks in the plan: those of changed packages, and by rising rank those from which an arc
// leads to a marked one.
#[tactic(auto, using(crate::proofs::Spreading::by_rank))]
pub(crate) fn mark(
    condensed: &Condensed,
    records: &[PackageRecord],
    changed: &[u32],
    live: &mut [u32],
)
    requires rows { Rows condensed.now (length live.old) }
    requires falling { Falling (Leads condensed.now) (length live.old) }
    requires ranks { (p : ℕ) → p < length records.now → (of records.now p).rank < length live.old }
    requires known { (k : ℕ) → k < length changed.now → slice_index changed.now k < length records.now }
    ensures { Spreads (Leads condensed.now) (Seed records.now changed.now) (length live.old) live.new }
{
    live.fill(0);
    mark_changed(records, changed, live);
    for rank in 0..live.len() {
        follow(condensed.row(rank), rank, live);
    }
}

// Marks the ranks of changed packages.
fn mark_changed(records: &[PackageRecord], changed: &[u32], live: &mut [u32])
    requires ranks { (p : ℕ) → p < length records.now → (of records.now p).rank < length live.old }
    requires known { (k : ℕ) → k < length changed.now → slice_index changed.now k < length records.now }
    requires zeros { (t : ℕ) → slice_index live.old t ≡ 0 }
    ensures seeds { (c t : ℕ) → Seed records.now changed.now c t → Marked live.new t }
    ensures sound { (t : ℕ) → Marked live.new t → (c : ℕ) × Seed records.now changed.now c t }
{
    for p in changed {
        live[records[*p as usize].rank as usize] = 1;
    }
}

// Marks a rank if one of its targets is marked.
fn follow(targets: &[u32], rank: usize, live: &mut [u32])
    requires own { rank < length live.old }
    requires inside { All (λ t. t < length live.old) targets.now }
    ensures { Follows targets.now rank live.old live.new }
{
    if targets.iter().any(|target| live[*target as usize] != 0) {
        live[rank] = 1;
    }
}
