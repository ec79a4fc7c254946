// A job's set: its targets by falling rank, each with its own set.
ghost use Rattle.std.specs.Prelude.{ℕ, ◌≡◌, ◌*◌, ◌<◌, ◌≤◌, length, slice_index};
ghost use Rattle.tables.specs.Tables.{put_row};
ghost use Rattle.plans.specs.Steps.{Named, Nested, Merged, joined, Takes};

// What the set table says of two jobs: that one waits for the other, or that the other is only in its
// set.
const WAIT: u32 = 2;

const IN_SET: u32 = 1;

// Fills a job's row of the set table, of the flags of its targets.
pub(crate) fn fill_set(flags: &[u32], names: &[u32], job: usize, row: &mut [u32], sets: &mut [u8])
    requires few { length row.old ≤ 1024 }
    requires table { length sets.old ≡ length row.old * length row.old }
    requires named { Named names.now (length row.old) (length flags.now) }
    requires nested { Nested names.now sets.old (length row.old) (length flags.now) }
    requires inside { job < length row.old }
    ensures merged { Merged flags.now names.now sets.old (length row.old) 0 (length flags.now) row.new }
    ensures entered { sets.new ≡ put_row (length row.old) sets.old job row.new }
{
    merge(flags, names, sets, row);
    enter_row(row, job, sets);
}

// Takes the flagged targets by falling rank.
#[tactic(auto, using(plans::proofs::Merging::by_falling_rank))]
fn merge(flags: &[u32], names: &[u32], sets: &[u8], row: &mut [u32])
    requires few { length row.old ≤ 1024 }
    requires table { length sets.now ≡ length row.old * length row.old }
    requires named { Named names.now (length row.old) (length flags.now) }
    requires nested { Nested names.now sets.now (length row.old) (length flags.now) }
    ensures { Merged flags.now names.now sets.now (length row.old) 0 (length flags.now) row.new }
{
    let n = row.len();
    row.fill(0);
    for rank in (0..flags.len()).rev() {
        if flags[rank] != 0 {
            let target = names[rank] as usize;
            take_target(row, target, &sets[target * n..target * n + n]);
        }
    }
}

// Takes a target with its set: skips it where it is in the row already, and else adds it and its set.
fn take_target(row: &mut [u32], target: usize, set: &[u8])
    requires inside { target < length row.old }
    requires long { length set.now ≡ length row.old }
    ensures { Takes row.old target set.now row.new }
{
    if row[target] == 0 {
        add_set(row, set);
        row[target] = WAIT;
    }
}

// Adds a set to another.
fn add_set(row: &mut [u32], set: &[u8])
    requires { length set.now ≡ length row.old }
    ensures { (c : ℕ) → c < length row.old → slice_index row.new c ≡ joined (slice_index row.old c) (slice_index set.now c) }
{
    // no `zip`: nothing is known of cells written through one
    for (job, cell) in row.iter_mut().enumerate() {
        *cell = either(*cell, set[job]);
    }
}

// A cell once the same cell of a further set is added.
fn either(cell: u32, more: u8) -> u32
    ensures { result ≡ joined cell more }
{
    if cell == 0 && more != 0 { IN_SET } else { cell }
}

// Writes a job's row of the set table.
#[tactic(auto, using(tables::proofs::Areas::row_within))]
fn enter_row(row: &[u32], job: usize, sets: &mut [u8])
    requires inside { job < length row.now }
    requires few { length row.now ≤ 1024 }
    requires table { length sets.old ≡ length row.now * length row.now }
    requires small { (c : ℕ) → c < length row.now → slice_index row.now c ≤ 2 }
    ensures { sets.new ≡ put_row (length row.now) sets.old job row.now }
{
    let n = row.len();
    write_row(row, &mut sets[job * n..job * n + n]);
}

// Writes a row of words as bytes.
fn write_row(row: &[u32], bytes: &mut [u8])
    requires long { length bytes.old ≡ length row.now }
    requires small { (c : ℕ) → c < length row.now → slice_index row.now c ≤ 2 }
    ensures { bytes.new ≡ row.now }
{
    for (job, byte) in bytes.iter_mut().enumerate() {
        *byte = row[job] as u8;
    }
}
