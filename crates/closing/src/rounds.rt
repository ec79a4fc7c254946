// Closing by rounds: each round extends by one arc what the round before it changed.
ghost use Rattle.std.specs.Prelude.{◌≡◌, ℕ, ◌+◌, ◌*◌, ◌<◌, ◌≤◌, true, false, not, length, take, is_ok, if◌then◌else◌, Ok};
ghost use Rattle.paths.specs.Chains.{L};
ghost use Rattle.paths.specs.Tables.{cell, Shows, LeastStill, before, rounds_made};
ghost use Rattle.paths.specs.Closures.{Closure};
ghost use Rattle.catalogue.specs.Refusals.{answer};
ghost use Rattle.catalogue.specs.Meanings.{in_force};
ghost use Rattle.tables.specs.Closings.{labels, rounds_answer, closing_leaves};
ghost use Rattle.tables.specs.Tables.{Square, row, put_row, relaxed};
ghost use Rattle.tables.specs.Settling.{Settled};

use crate::direct::{clear, direct};
use crate::places::Side;
use crate::relax::relax_row;
use catalogue::{Catalogue, Refusal};
use labels::Label;
use paths::Arc;

// Closes by rounds: from L(1), each round extends by one arc what changed in the round before.
// Answers the rounds made; `changed` and `found` are spare tables.
// Three slices, not a struct of them: nothing is known, after the call, of a part of a table or of
// a `Vec`'s slice that is lent in a struct.
pub fn by_rounds<C: Catalogue>(
    catalogue: &C,
    table: &mut [C::Label],
    changed: &mut [C::Label],
    found: &mut [C::Label],
) -> Result<usize, Refusal>
    ensures answers { answer result ≡ rounds_answer C.Label.Label.ops (C.Catalogue.meaning catalogue.now) (length table.old) (length changed.old) (length found.old) }
    ensures leaves { table.new ≡ closing_leaves C.Label.Label.ops (C.Catalogue.meaning catalogue.now) (answer result) table.old }
    ensures spares { is_ok (answer result) ≡ false → (changed.new ≡ changed.old) × (found.new ≡ found.old) }
    ensures closure { is_ok (answer result) ≡ true → Closure C.Label.Label.ops (in_force (C.Catalogue.meaning catalogue.now)) (C.Catalogue.meaning catalogue.now).n (take ((C.Catalogue.meaning catalogue.now).n * (C.Catalogue.meaning catalogue.now).n) table.new) }
    ensures least { (rounds : ℕ) → answer result ≡ Ok rounds → LeastStill C.Label.Label.ops (in_force (C.Catalogue.meaning catalogue.now)) (C.Catalogue.meaning catalogue.now).n rounds }
{
    close(catalogue, table, changed, found)
}

// The closing itself, apart, so that a wrong step is refused here; `by_rounds` adds what is true
// of a closed table.
fn close<C: Catalogue>(
    catalogue: &C,
    table: &mut [C::Label],
    changed: &mut [C::Label],
    found: &mut [C::Label],
) -> Result<usize, Refusal>
    ensures answers { answer result ≡ rounds_answer C.Label.Label.ops (C.Catalogue.meaning catalogue.now) (length table.old) (length changed.old) (length found.old) }
    ensures leaves { table.new ≡ closing_leaves C.Label.Label.ops (C.Catalogue.meaning catalogue.now) (answer result) table.old }
    ensures spares { is_ok (answer result) ≡ false → (changed.new ≡ changed.old) × (found.new ≡ found.old) }
{
    let cells = Side::of(catalogue).area();
    if table.len() < cells || changed.len() < cells || found.len() < cells {
        return Err(Refusal::ShortBuffer);
    }
    Ok(fill(
        catalogue,
        &mut table[..cells],
        &mut changed[..cells],
        &mut found[..cells],
    ))
}

// Writes L(n), and answers the number of rounds: the last is the first that changes nothing.
fn fill<C: Catalogue>(
    catalogue: &C,
    cells: &mut [C::Label],
    changed: &mut [C::Label],
    found: &mut [C::Label],
) -> usize
    requires square { Square (C.Catalogue.meaning catalogue.now).n cells.old }
    requires spares { (Square (C.Catalogue.meaning catalogue.now).n changed.old) × (Square (C.Catalogue.meaning catalogue.now).n found.old) }
    ensures table { cells.new ≡ labels C.Label.Label.ops (C.Catalogue.meaning catalogue.now) }
    ensures count { result ≡ rounds_made C.Label.Label.ops (in_force (C.Catalogue.meaning catalogue.now)) (C.Catalogue.meaning catalogue.now).n }
{
    direct(catalogue, cells);
    changed.copy_from_slice(cells);
    clear(found);
    let mut made = 0;
    // A `for` over the rounds would need an answer after its end, which no closing reaches.
    loop {
        made = one_more(made);
        spread(catalogue, changed, found);
        if !settle(cells, changed, found) {
            return made;
        }
    }
}

// Joins to the row of the arc's start what the arc leads to: its label extended by the row of its
// end.
fn follow<K: Label>(arc: Arc<K>, side: Side, changed: &[K], found: &mut [K])
    requires from { arc.from < side.n }
    requires to { arc.to < side.n }
    requires changed { Square side.n changed.now }
    requires found { Square side.n found.old }
    ensures { found.new ≡ put_row side.n found.old arc.from (relaxed K.ops arc.label (row side.n found.old arc.from) (row side.n changed.now arc.to)) }
{
    let from = side.row_start(arc.from);
    let to = side.row_start(arc.to);
    relax_row(
        &mut found[from..from + side.n],
        &changed[to..to + side.n],
        arc.label,
    );
}

// Puts every arc in force before what changed, and joins the ways to what was found.
fn spread<C: Catalogue>(catalogue: &C, changed: &[C::Label], found: &mut [C::Label])
    requires changed { Square (C.Catalogue.meaning catalogue.now).n changed.now }
    requires found { Square (C.Catalogue.meaning catalogue.now).n found.old }
    ensures { Shows C.Label.Label.ops (C.Catalogue.meaning catalogue.now).n found.new (λ i j. C.Label.Label.ops.join (cell C.Label.Label.ops (C.Catalogue.meaning catalogue.now).n found.old i j) (before C.Label.Label.ops (in_force (C.Catalogue.meaning catalogue.now)) (cell C.Label.Label.ops (C.Catalogue.meaning catalogue.now).n changed.now) i j)) }
{
    let side = Side::of(catalogue);
    let places = catalogue.stock_len();
    // By place, as in `direct`.
    for k in 0..places {
        if let Some(arc) = catalogue.arc_at(k) {
            follow(arc, side, changed, found);
        }
    }
}

// Joins to a cell what was found, keeps the new label where it differs, and answers whether it
// does.
fn settle_cell<K: Label>(cell: &mut K, changed: &mut K, found: &mut K) -> bool
    ensures joined { cell.new ≡ K.ops.join cell.old found.old }
    ensures told { changed.new ≡ (if result then K.ops.join cell.old found.old else K.ops.none) }
    ensures clean { found.new ≡ K.ops.none }
    ensures moved { result ≡ not (K.ops.same (K.ops.join cell.old found.old) cell.old) }
{
    let new = cell.join(*found);
    let moved = !new.same(*cell);
    *cell = new;
    *changed = if moved { new } else { K::NONE };
    *found = K::NONE;
    moved
}

// Joins to every cell what was found, keeps what that changed, and answers whether it changed any.
fn settle<K: Label>(cells: &mut [K], changed: &mut [K], found: &mut [K]) -> bool
    requires changed { length changed.old ≡ length cells.old }
    requires found { length found.old ≡ length cells.old }
    ensures { Settled K.ops cells.old found.old cells.new changed.new found.new (length cells.old) result }
{
    let mut moved = false;
    // no `zip`, as in `relax_row`
    for (u, cell) in cells.iter_mut().enumerate() {
        moved |= settle_cell(cell, &mut changed[u], &mut found[u]);
    }
    moved
}

// The rounds made, once there is one more: apart, so that a wrong count is refused here.
fn one_more(made: usize) -> usize
    requires { made < 1024 }
    ensures { result ≡ made + 1 }
{
    made + 1
}
