// One package's row of a finished table.
ghost use Rattle.std.specs.Prelude.{◌≡◌};
ghost use Rattle.catalogue.specs.Refusals.{meant};
ghost use Rattle.tables.specs.Rows.{row_answer};

use crate::places::Side;
use catalogue::{Refusal, count_fits, outside};

// The n cells of package `p`: labels, or the bytes of a set.
pub fn row<T>(table: &[T], n: u32, p: u32) -> Result<&[T], Refusal>
    ensures { meant (λ s. s.now) result ≡ row_answer table.now n p }
{
    if !count_fits(n) {
        return Err(Refusal::BadCount);
    }
    let side = Side { n: n as usize };
    if table.len() < side.area() {
        return Err(Refusal::ShortBuffer);
    }
    if outside(n, p) {
        return Err(Refusal::NoPackage);
    }
    let from = side.row_start(p);
    Ok(&table[from..from + side.n])
}
