// The jobs by rising rank: their sets, waits and waves.
ghost use Rattle.std.specs.Prelude.{◌+◌, ℕ, ◌≡◌, ◌≢◌, ◌*◌, ◌<◌, ◌≤◌, length, slice_index};
ghost use Rattle.graphs.specs.Searches.{Marked};
ghost use Rattle.plans.specs.Steps.{Named, Falling, Between, Flagged, Built};
ghost use Rattle.plan.specs.Tables.{Leads, Rows, Aimed};

use crate::condensed::Condensed;
use crate::merging::fill_set;
use crate::waves::depth;

// Takes the jobs by rising rank: fills the set table, and the wave of each rank.
#[tactic(auto, using(crate::proofs::Jobs::job_none))]
pub(crate) fn build(
    condensed: &Condensed,
    live: &[u32],
    names: &[u32],
    flags: &mut [u32],
    row: &mut [u32],
    waves: &mut [u32],
    sets: &mut [u8],
)
    requires rows { Rows condensed.now (length live.now) }
    requires few { length row.old ≤ 1024 }
    requires falling { Falling (Leads condensed.now) (length live.now) }
    requires named { Named names.now (length row.old) (length live.now) }
    requires back { (r t : ℕ) → Leads condensed.now r t → Marked live.now t → Marked live.now r }
    requires flags { length flags.old ≡ length live.now }
    requires waves { length waves.old ≡ length live.now }
    requires table { length sets.old ≡ length row.old * length row.old }
    ensures { Built (Between (Leads condensed.now) live.now names.now) names.now waves.new sets.new (length row.old) (length live.now) }
{
    waves.fill(0);
    sets.fill(0);
    for rank in 0..live.len() {
        if live[rank] == 0 {
            continue;
        }
        take_job(condensed, rank, live, names, flags, row, waves, sets);
    }
}

// Takes one job: fills its row of the set table and enters its wave.
#[tactic(auto, using(crate::proofs::Jobs::taking))]
fn take_job(
    condensed: &Condensed,
    rank: usize,
    live: &[u32],
    names: &[u32],
    flags: &mut [u32],
    row: &mut [u32],
    waves: &mut [u32],
    sets: &mut [u8],
)
    requires rows { Rows condensed.now (length live.now) }
    requires few { length row.old ≤ 1024 }
    requires inside { rank < length live.now }
    requires falling { Falling (Leads condensed.now) (length live.now) }
    requires named { Named names.now (length row.old) (length live.now) }
    requires flags { length flags.old ≡ length live.now }
    requires waves { length waves.old ≡ length live.now }
    requires table { length sets.old ≡ length row.old * length row.old }
    requires built { Built (Between (Leads condensed.now) live.now names.now) names.now waves.old sets.old (length row.old) rank }
    ensures { Built (Between (Leads condensed.now) live.now names.now) names.now waves.new sets.new (length row.old) (rank + 1) }
{
    flag_targets(condensed, live, rank, flags);
    fill_set(&flags[..rank], names, names[rank] as usize, row, sets);
    waves[rank] = depth(&flags[..rank], waves);
}

// Flags the ranks in the plan, other than its own, to which arcs lead from a rank.
#[tactic(auto, using(crate::proofs::Jobs::flagging))]
fn flag_targets(condensed: &Condensed, live: &[u32], rank: usize, flags: &mut [u32])
    requires rows { Rows condensed.now (length live.now) }
    requires inside { rank < length live.now }
    requires wide { length flags.old ≡ length live.now }
    ensures { Flagged (Leads condensed.now) live.now rank flags.new }
{
    aim(condensed.row(rank), live, rank, flags);
}

// Flags the ranks in the plan, other than its own, to which arcs lead from a rank.
fn aim(targets: &[u32], live: &[u32], own: usize, flags: &mut [u32])
    requires inside { (k : ℕ) → k < length targets.now → slice_index targets.now k < length live.now }
    requires wide { length flags.old ≡ length live.now }
    ensures { Aimed targets.now live.now own flags.new }
{
    flags.fill(0);
    for target in targets {
        let target = *target as usize;
        if target != own && live[target] != 0 {
            flags[target] = 1;
        }
    }
}
