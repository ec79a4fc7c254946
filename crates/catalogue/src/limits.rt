// What bounds every catalogue.
ghost use Rattle.std.specs.Prelude.{◌≡◌, nat_le, if◌then◌else◌, Ok, Err};
ghost use Rattle.sheets.specs.Sheets.{count_test};
ghost use Rattle.catalogue.specs.Refusals.{answer};

use crate::refusal::Refusal;

// The largest n.
const MOST_PACKAGES: u32 = 1024;

// The most arcs that a stock has.
pub const MOST_ARCS: usize = 65536;

// Is n a number of packages?
pub fn count_fits(n: u32) -> bool
    ensures { result ≡ count_test n }
{
    (1..=MOST_PACKAGES).contains(&n)
}

// Is `p` no package number?
pub fn outside(n: u32, p: u32) -> bool
    ensures { result ≡ nat_le n p }
{
    p >= n
}

// Refuses what is no package number.
pub(crate) fn check_package(n: u32, p: u32) -> Result<(), Refusal>
    ensures { answer result ≡ (if nat_le n p then Err 6 else Ok tt) }
{
    if outside(n, p) {
        return Err(Refusal::NoPackage);
    }
    Ok(())
}
