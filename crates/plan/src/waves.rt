// The waves of jobs.
ghost use Rattle.std.specs.Prelude.{ℕ, ◌≡◌, ◌<◌, ◌≤◌, length, slice_index};
ghost use Rattle.graphs.specs.Records.{of};
ghost use Rattle.plans.specs.Steps.{Deep};
ghost use Rattle.plan.specs.Waves.{with_wave, wave_at};

use graphs::{NO_WAVE, PackageRecord};

// One more than the largest wave among the flagged ranks, or 0.
pub(crate) fn depth(flags: &[u32], waves: &[u32]) -> u32
    requires long { length flags.now ≤ length waves.now }
    requires few { length flags.now ≤ 1024 }
    requires low { (t : ℕ) → t < length flags.now → slice_index waves.now t ≤ t }
    ensures deep { Deep flags.now waves.now (length flags.now) result }
    ensures low { result ≤ length flags.now }
{
    let mut depth = 0;
    for (rank, flag) in flags.iter().enumerate() {
        if *flag != 0 {
            depth = depth.max(waves[rank] + 1);
        }
    }
    depth
}

// Enters the waves of the ranks into the records: none where the rank is not in the plan.
pub(crate) fn fill_waves(records: &mut [PackageRecord], live: &[u32], waves: &[u32])
    requires live { (p : ℕ) → p < length records.old → (of records.old p).rank < length live.now }
    requires waves { (p : ℕ) → p < length records.old → (of records.old p).rank < length waves.now }
    ensures { (p : ℕ) → p < length records.old → of records.new p ≡ with_wave (of records.old p) (wave_at live.now waves.now (of records.old p).rank) }
{
    for record in records.iter_mut() {
        record.wave = wave_at(live, waves, record.rank);
    }
}

// The wave of a rank.
fn wave_at(live: &[u32], waves: &[u32], rank: u32) -> u32
    requires live { rank < length live.now }
    requires waves { rank < length waves.now }
    ensures { result ≡ wave_at live.now waves.now rank }
{
    if live[rank as usize] == 0 {
        NO_WAVE
    } else {
        waves[rank as usize]
    }
}
