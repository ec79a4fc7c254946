// The groups as a graph of their own, by rank.
ghost use Rattle.std.specs.Prelude.{◌≡◌, ℕ, ◌+◌, ◌<◌, ◌≤◌, length, slice_index};
ghost use Rattle.graphs.specs.Records.{of};
ghost use Rattle.plan.specs.Tables.{Names};

use graphs::PackageRecord;

// Compressed rows: that of a rank has the ranks to which the arcs from its group lead, its own for an
// arc within the group.
#[derive(Clone, Copy)]
pub(crate) struct Condensed<'a> {
    pub(crate) starts: &'a [u32],
    pub(crate) targets: &'a [u32],
}

impl Condensed<'_> {
    // Not at the head of the file, since a struct's contracts read what stands there.
    ghost use Rattle.plan.specs.Tables.{row_at};

    pub(crate) fn row(&self, rank: usize) -> &[u32]
        requires inside { rank + 1 < length self.now.starts.now }
        requires rising { slice_index self.now.starts.now rank ≤ slice_index self.now.starts.now (rank + 1) }
        requires within { slice_index self.now.starts.now (rank + 1) ≤ length self.now.targets.now }
        ensures { result.now ≡ row_at self.now rank }
    {
        &self.targets[self.starts[rank] as usize..self.starts[rank + 1] as usize]
    }
}

// Notes for each rank the name of its group.
pub(crate) fn name_ranks(records: &[PackageRecord], names: &mut [u32])
    requires inside { (p : ℕ) → p < length records.now → (of records.now p).rank < length names.old }
    requires same { (p q : ℕ) → p < length records.now → q < length records.now → (of records.now p).rank ≡ (of records.now q).rank → (of records.now p).group ≡ (of records.now q).group }
    ensures { Names records.now names.new }
{
    for record in records {
        names[record.rank as usize] = record.group;
    }
}
