// The label of one pair.
ghost use Rattle.std.specs.Prelude.{◌≡◌, ◌<◌, ◌||◌, length, nat_le, slice_index_or};
ghost use Rattle.catalogue.specs.Refusals.{answer, on_ok};
ghost use Rattle.tables.specs.Closings.{label_answer, closing_leaves};
ghost use Rattle.tables.specs.Rows.{row_answer};

use crate::elimination::by_elimination;
use crate::rows::row;
use catalogue::{Catalogue, Refusal, outside};
use labels::Label;

// The label of a pair: closes by elimination into `table`, and reads it from the row of `from`.
pub fn label_of<C: Catalogue>(
    catalogue: &C,
    table: &mut [C::Label],
    from: u32,
    to: u32,
) -> Result<C::Label, Refusal>
    ensures answers { answer result ≡ label_answer C.Label.Label.ops (C.Catalogue.meaning catalogue.now) (length table.old) from to }
    ensures leaves { table.new ≡ closing_leaves C.Label.Label.ops (C.Catalogue.meaning catalogue.now) (answer result) table.old }
{
    let n = catalogue.n();
    if either_outside(n, from, to) {
        return Err(Refusal::NoPackage);
    }
    by_elimination(catalogue, table)?;
    cell(table, n, from, to)
}

// Is one of the two no package?
fn either_outside(n: u32, from: u32, to: u32) -> bool
    ensures { result ≡ (nat_le n from || nat_le n to) }
{
    outside(n, from) || outside(n, to)
}

// The cell of a pair, read from the row of `from`.
#[tactic(auto, using(tables::proofs::Reading::row_length))]
fn cell<K: Label>(table: &[K], n: u32, from: u32, to: u32) -> Result<K, Refusal>
    requires { to < n }
    ensures { answer result ≡ on_ok (λ cells. slice_index_or cells to K.ops.none) (row_answer table.now n from) }
{
    let cells = row(table, n, from)?;
    Ok(cells[to as usize])
}
