// The start of a closing: L(1), the table of single arcs.
ghost use Rattle.std.specs.Prelude.{◌≡◌, ℕ, ◌<◌, length, slice_index_or, slice_set};
ghost use Rattle.paths.specs.Chains.{L};
ghost use Rattle.paths.specs.Tables.{Shows};
ghost use Rattle.tables.specs.Tables.{Square};
ghost use Rattle.catalogue.specs.Meanings.{in_force};

use crate::places::Side;
use catalogue::Catalogue;
use labels::Label;

// Writes none into every cell.
pub(crate) fn clear<K: Label>(cells: &mut [K])
    ensures { (u : ℕ) → u < length cells.old → slice_index_or cells.new u K.ops.none ≡ K.ops.none }
{
    cells.fill_with(|| K::NONE);
}

// Joins a label to a cell.
pub(crate) fn join_to<K: Label>(cells: &mut [K], at: usize, label: K)
    requires { at < length cells.old }
    ensures { cells.new ≡ slice_set cells.old at (K.ops.join (slice_index_or cells.old at K.ops.none) label) }
{
    cells[at] = cells[at].join(label);
}

// Writes L(1): the label of every arc in force, joined into the cell of its ends.
pub(crate) fn direct<C: Catalogue>(catalogue: &C, cells: &mut [C::Label])
    requires square { Square (C.Catalogue.meaning catalogue.now).n cells.old }
    ensures { Shows C.Label.Label.ops (C.Catalogue.meaning catalogue.now).n cells.new (L C.Label.Label.ops (in_force (C.Catalogue.meaning catalogue.now)) 1) }
{
    let side = Side::of(catalogue);
    clear(cells);
    let places = catalogue.stock_len();
    // By place: no `for` over `filter_map` of `arc_at` can be proved, as the goal that the check
    // writes for it has a type error.
    for k in 0..places {
        if let Some(arc) = catalogue.arc_at(k) {
            join_to(cells, side.place(arc.from, arc.to), arc.label);
        }
    }
}
