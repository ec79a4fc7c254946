// One row of labels joined with the ways through another.
ghost use Rattle.std.specs.Prelude.{◌≡◌, not, length};
ghost use Rattle.tables.specs.Tables.{relaxed};

use labels::Label;

// Is there a way at all?
pub(crate) fn leads<K: Label>(label: K) -> bool
    ensures { result ≡ not (K.ops.same label K.ops.none) }
{
    !label.same(K::NONE)
}

// The cell joined with the way over `first` and then `next`.
pub(crate) fn relax<K: Label>(cell: K, first: K, next: K) -> K
    ensures { result ≡ K.ops.join cell (K.ops.extend first next) }
{
    cell.join(first.extend(next))
}

// Every cell of `row` is joined with `first` extended by the cell of `via` at the same column.
#[tactic(auto, using(tables::proofs::RowWrites::relaxed_more))]
pub(crate) fn relax_row<K: Label>(row: &mut [K], via: &[K], first: K)
    requires { length via.now ≡ length row.old }
    ensures { row.new ≡ relaxed K.ops first row.old via.now }
{
    // no `zip`: nothing is known of cells written through one
    for (j, cell) in row.iter_mut().enumerate() {
        *cell = relax(*cell, first, via[j]);
    }
}
