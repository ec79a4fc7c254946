// Closing by order: package by package, by rising rank, so that all that a package leads to is closed
// before it.
ghost use Rattle.std.specs.Prelude.{◌≡◌, ◌≢◌, ◌+◌, ◌*◌, ◌<◌, ◌≤◌, true, false, length, take, is_ok, if◌then◌else◌, Ok, Err, ◌==◌};
ghost use Rattle.paths.specs.Groups.{groups, looped, Grouped, Loop, LoopTold};
ghost use Rattle.paths.specs.Tables.{cell, Shows};
ghost use Rattle.paths.specs.Closures.{Closure};
ghost use Rattle.catalogue.specs.Refusals.{answer};
ghost use Rattle.catalogue.specs.Meanings.{in_force};
ghost use Rattle.catalogue.specs.Calls.{arc_at};
ghost use Rattle.tables.specs.Tables.{Square, row, put_row, relaxed};
ghost use Rattle.tables.specs.Closings.{labels, closing_leaves};
ghost use Rattle.graphs.specs.Records.{own_names, Sorted};
ghost use Rattle.graphs.specs.Answers.{order_lacks, order_answer};
ghost use Rattle.graphs.specs.Rows.{places, Compressed};
ghost use Rattle.graphs.specs.Searches.{Lists};
ghost use Rattle.graphs.specs.Orders.{led, led_row, EndsFirst};

use crate::direct::{clear, join_to};
use crate::places::Side;
use crate::relax::relax_row;
use catalogue::{Catalogue, Refusal};
use graphs::PackageRecord;
use labels::Label;
use paths::Arc;
use sorting::{Entries, fill_rows, lacks, sort_in_order};

// Closes by order: sorts, and takes the packages by rising rank. A chain that leads back to its start
// is refused, and the records are then as sort leaves them.
pub fn by_order<C: Catalogue>(
    catalogue: &C,
    table: &mut [C::Label],
    records: &mut [PackageRecord],
    words: &mut [u32],
) -> Result<(), Refusal>
    ensures answers { answer result ≡ order_answer (C.Catalogue.meaning catalogue.now) (length table.old) (length records.old) (length words.old) }
    ensures leaves { table.new ≡ closing_leaves C.Label.Label.ops (C.Catalogue.meaning catalogue.now) (answer result) table.old }
    ensures sorts { order_lacks (C.Catalogue.meaning catalogue.now) (length table.old) (length records.old) (length words.old) ≡ false → Sorted (in_force (C.Catalogue.meaning catalogue.now)) (C.Catalogue.meaning catalogue.now).n records.old records.new }
    ensures keeps { order_lacks (C.Catalogue.meaning catalogue.now) (length table.old) (length records.old) (length words.old) ≡ true → (records.new ≡ records.old) × (words.new ≡ words.old) }
    ensures closure { is_ok (answer result) ≡ true → Closure C.Label.Label.ops (in_force (C.Catalogue.meaning catalogue.now)) (C.Catalogue.meaning catalogue.now).n (take ((C.Catalogue.meaning catalogue.now).n * (C.Catalogue.meaning catalogue.now).n) table.new) }
    ensures grouped { Grouped (in_force (C.Catalogue.meaning catalogue.now)) (C.Catalogue.meaning catalogue.now).n (groups (in_force (C.Catalogue.meaning catalogue.now)) (C.Catalogue.meaning catalogue.now).n) }
    ensures loops { LoopTold (in_force (C.Catalogue.meaning catalogue.now)) (C.Catalogue.meaning catalogue.now).n (looped (in_force (C.Catalogue.meaning catalogue.now)) (C.Catalogue.meaning catalogue.now).n) }
{
    close(catalogue, table, records, words)
}

// The closing itself, which does without the law that whole absorbs.
fn close<C: Catalogue>(
    catalogue: &C,
    table: &mut [C::Label],
    records: &mut [PackageRecord],
    words: &mut [u32],
) -> Result<(), Refusal>
    ensures answers { answer result ≡ order_answer (C.Catalogue.meaning catalogue.now) (length table.old) (length records.old) (length words.old) }
    ensures leaves { table.new ≡ closing_leaves C.Label.Label.ops (C.Catalogue.meaning catalogue.now) (answer result) table.old }
    ensures sorts { order_lacks (C.Catalogue.meaning catalogue.now) (length table.old) (length records.old) (length words.old) ≡ false → Sorted (in_force (C.Catalogue.meaning catalogue.now)) (C.Catalogue.meaning catalogue.now).n records.old records.new }
    ensures keeps { order_lacks (C.Catalogue.meaning catalogue.now) (length table.old) (length records.old) (length words.old) ≡ true → (records.new ≡ records.old) × (words.new ≡ words.old) }
{
    let side = Side::of(catalogue);
    if table.len() < side.area() || lacks(catalogue, records.len(), words.len()) {
        return Err(Refusal::ShortBuffer);
    }
    let (order, spare) = words.split_at_mut(side.n);
    sort_straight(catalogue, records, order, spare)?;
    fill(catalogue, order, spare, &mut table[..side.area()])
}

// Sorts, and refuses a chain that leads back to its start. Where there is none, the end of each arc
// stands in `order` before its start.
fn sort_straight<C: Catalogue>(
    catalogue: &C,
    records: &mut [PackageRecord],
    order: &mut [u32],
    spare: &mut [u32],
) -> Result<(), Refusal>
    requires records { (C.Catalogue.meaning catalogue.now).n ≤ length records.old }
    requires order { length order.old ≡ (C.Catalogue.meaning catalogue.now).n }
    requires spare { 4 * (C.Catalogue.meaning catalogue.now).n + 1 + length (C.Catalogue.meaning catalogue.now).stock ≤ length spare.old }
    ensures answers { answer result ≡ (if looped (in_force (C.Catalogue.meaning catalogue.now)) (C.Catalogue.meaning catalogue.now).n then Err 14 else Ok tt) }
    ensures sorted { Sorted (in_force (C.Catalogue.meaning catalogue.now)) (C.Catalogue.meaning catalogue.now).n records.old records.new }
    ensures listed { Lists order.new (C.Catalogue.meaning catalogue.now).n }
    ensures first { is_ok (answer result) ≡ true → EndsFirst (in_force (C.Catalogue.meaning catalogue.now)) order.new (C.Catalogue.meaning catalogue.now).n }
    ensures straight { is_ok (answer result) ≡ true → Loop (in_force (C.Catalogue.meaning catalogue.now)) → ⊥ }
{
    sort_in_order(catalogue, records, order, spare)?;
    no_loop(&records[..catalogue.n() as usize])
}

// Refuses records in which a package is not its group's name: then a chain leads back to its start.
#[tactic(auto, using(graphs::proofs::OwnNames::all_own, graphs::proofs::OwnNames::one_other))]
fn no_loop(records: &[PackageRecord]) -> Result<(), Refusal>
    ensures { answer result ≡ (if own_names records.now then Ok tt else Err 14) }
{
    for (p, record) in records.iter().enumerate() {
        if record.group as usize != p {
            return Err(Refusal::Loop);
        }
    }
    Ok(())
}

// L(n) into a table of n × n cells, row by row in the order given.
fn fill<C: Catalogue>(
    catalogue: &C,
    order: &[u32],
    spare: &mut [u32],
    cells: &mut [C::Label],
) -> Result<(), Refusal>
    requires square { Square (C.Catalogue.meaning catalogue.now).n cells.old }
    requires long { length order.now ≡ (C.Catalogue.meaning catalogue.now).n }
    requires spare { 2 * (C.Catalogue.meaning catalogue.now).n + 1 + length (C.Catalogue.meaning catalogue.now).stock ≤ length spare.old }
    requires listed { Lists order.now (C.Catalogue.meaning catalogue.now).n }
    requires first { EndsFirst (in_force (C.Catalogue.meaning catalogue.now)) order.now (C.Catalogue.meaning catalogue.now).n }
    requires straight { Loop (in_force (C.Catalogue.meaning catalogue.now)) → ⊥ }
    ensures answers { answer result ≡ Ok tt }
    ensures cells { cells.new ≡ labels C.Label.Label.ops (C.Catalogue.meaning catalogue.now) }
{
    let n = catalogue.n() as usize;
    let (starts, spare) = spare.split_at_mut(n + 1);
    let (next, entries) = spare.split_at_mut(n);
    fill_rows(catalogue, Entries::Places, starts, next, entries)?;
    fill_in_turn(catalogue, order, starts, entries, cells);
    Ok(())
}

// The same, where the places of each package's arcs are entered in its row.
fn fill_in_turn<C: Catalogue>(
    catalogue: &C,
    order: &[u32],
    starts: &[u32],
    entries: &[u32],
    cells: &mut [C::Label],
)
    requires square { Square (C.Catalogue.meaning catalogue.now).n cells.old }
    requires rows { Compressed (arc_at (C.Catalogue.meaning catalogue.now)) places (C.Catalogue.meaning catalogue.now).n (length (C.Catalogue.meaning catalogue.now).stock) starts.now entries.now }
    requires long { length order.now ≡ (C.Catalogue.meaning catalogue.now).n }
    requires listed { Lists order.now (C.Catalogue.meaning catalogue.now).n }
    requires first { EndsFirst (in_force (C.Catalogue.meaning catalogue.now)) order.now (C.Catalogue.meaning catalogue.now).n }
    requires straight { Loop (in_force (C.Catalogue.meaning catalogue.now)) → ⊥ }
    ensures { cells.new ≡ labels C.Label.Label.ops (C.Catalogue.meaning catalogue.now) }
{
    let side = Side::of(catalogue);
    for p in order {
        fill_row(catalogue, side, *p, starts, entries, cells);
    }
}

// Row `p` made of what its arcs lead to: the join over them of each, and of each before the row of
// its end.
fn fill_row<C: Catalogue>(
    catalogue: &C,
    side: Side,
    p: u32,
    starts: &[u32],
    entries: &[u32],
    cells: &mut [C::Label],
)
    requires side { side.n ≡ (C.Catalogue.meaning catalogue.now).n }
    requires inside { p < side.n }
    requires square { Square (C.Catalogue.meaning catalogue.now).n cells.old }
    requires rows { Compressed (arc_at (C.Catalogue.meaning catalogue.now)) places (C.Catalogue.meaning catalogue.now).n (length (C.Catalogue.meaning catalogue.now).stock) starts.now entries.now }
    ensures { Shows C.Label.Label.ops (C.Catalogue.meaning catalogue.now).n cells.new (led_row C.Label.Label.ops (cell C.Label.Label.ops (C.Catalogue.meaning catalogue.now).n cells.old) (in_force (C.Catalogue.meaning catalogue.now)) p) }
{
    clear_row(cells, side, p);
    let first = starts[p as usize] as usize;
    let end = starts[p as usize + 1] as usize;
    for k in first..end {
        if let Some(arc) = catalogue.arc_at(entries[k] as usize) {
            join_arc(arc, side, cells);
        }
    }
}

// Writes none into row `p`.
#[tactic(auto, using(graphs::proofs::Ordered::row_cleared))]
fn clear_row<K: Label>(cells: &mut [K], side: Side, p: u32)
    requires inside { p < side.n }
    requires square { Square side.n cells.old }
    ensures { Shows K.ops side.n cells.new (λ i j. if i == p then K.ops.none else cell K.ops side.n cells.old i j) }
{
    let from = side.row_start(p);
    clear(&mut cells[from..from + side.n]);
}

// Joins to the row of the arc's start the arc, and what it leads to.
#[tactic(auto, using(graphs::proofs::Ordered::arc_led))]
fn join_arc<K: Label>(arc: Arc<K>, side: Side, cells: &mut [K])
    requires from { arc.from < side.n }
    requires to { arc.to < side.n }
    requires apart { arc.from ≢ arc.to }
    requires square { Square side.n cells.old }
    ensures { Shows K.ops side.n cells.new (λ i j. K.ops.join (cell K.ops side.n cells.old i j) (led K.ops (cell K.ops side.n cells.old) arc i j)) }
{
    join_to(cells, side.place(arc.from, arc.to), arc.label);
    follow_in(arc, side, cells);
}

// Joins to the row of the arc's start its label before the row of its end.
fn follow_in<K: Label>(arc: Arc<K>, side: Side, cells: &mut [K])
    requires from { arc.from < side.n }
    requires to { arc.to < side.n }
    requires apart { arc.from ≢ arc.to }
    requires square { Square side.n cells.old }
    ensures { cells.new ≡ put_row side.n cells.old arc.from (relaxed K.ops arc.label (row side.n cells.old arc.from) (row side.n cells.old arc.to)) }
{
    if arc.from < arc.to {
        follow_on(arc, side, cells)
    } else {
        follow_back(arc, side, cells)
    }
}

// The same, where the row of its end is the later one.
#[tactic(auto, using(tables::proofs::Areas::row_before))]
fn follow_on<K: Label>(arc: Arc<K>, side: Side, cells: &mut [K])
    requires rising { arc.from < arc.to }
    requires to { arc.to < side.n }
    requires square { Square side.n cells.old }
    ensures { cells.new ≡ put_row side.n cells.old arc.from (relaxed K.ops arc.label (row side.n cells.old arc.from) (row side.n cells.old arc.to)) }
{
    let from = side.row_start(arc.from);
    let (low, high) = cells.split_at_mut(side.row_start(arc.to));
    relax_row(&mut low[from..from + side.n], &high[..side.n], arc.label);
}

// The same, where it is the earlier one.
#[tactic(auto, using(tables::proofs::Areas::row_before))]
fn follow_back<K: Label>(arc: Arc<K>, side: Side, cells: &mut [K])
    requires falling { arc.to < arc.from }
    requires from { arc.from < side.n }
    requires square { Square side.n cells.old }
    ensures { cells.new ≡ put_row side.n cells.old arc.from (relaxed K.ops arc.label (row side.n cells.old arc.from) (row side.n cells.old arc.to)) }
{
    let to = side.row_start(arc.to);
    let (low, high) = cells.split_at_mut(side.row_start(arc.from));
    relax_row(&mut high[..side.n], &low[to..to + side.n], arc.label);
}
