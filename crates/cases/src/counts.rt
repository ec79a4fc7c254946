// Counts of what a test has seen.
ghost use Rattle.std.specs.Prelude.{◌≡◌, ◌+◌, ◌-◌, ◌^◌, min, if◌then◌else◌};

// Counts one more where it holds, up to the largest number.
pub fn count(times: &mut usize, holds: bool)
    ensures { times.new ≡ (if holds then min (times.old + 1) (2 ^ 64 - 1) else times.old) }
{
    *times = times.saturating_add(usize::from(holds));
}
