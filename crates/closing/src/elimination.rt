// Closing by elimination: package by package, every pair is joined with its way through it.
ghost use Rattle.std.specs.Prelude.{◌≡◌, ◌*◌, ◌<◌, ◌≤◌, true, length, take, is_ok, slice_index_or};
ghost use Rattle.paths.specs.Tables.{cell, Shows, through, eliminated};
ghost use Rattle.paths.specs.Closures.{Closure};
ghost use Rattle.catalogue.specs.Refusals.{answer};
ghost use Rattle.catalogue.specs.Meanings.{in_force};
ghost use Rattle.tables.specs.Tables.{Square, Reaches};
ghost use Rattle.tables.specs.Closings.{labels, elimination_answer, closing_leaves};

use crate::direct::direct;
use crate::places::Side;
use crate::relax::{leads, relax_row};
use catalogue::{Catalogue, Refusal};
use labels::Label;

// Closes by elimination: for each package k from 0, every pair is joined with its way through k.
pub fn by_elimination<C: Catalogue>(catalogue: &C, table: &mut [C::Label]) -> Result<(), Refusal>
    ensures answers { answer result ≡ elimination_answer C.Label.Label.ops (C.Catalogue.meaning catalogue.now) (length table.old) }
    ensures leaves { table.new ≡ closing_leaves C.Label.Label.ops (C.Catalogue.meaning catalogue.now) (answer result) table.old }
    ensures closure { is_ok (answer result) ≡ true → Closure C.Label.Label.ops (in_force (C.Catalogue.meaning catalogue.now)) (C.Catalogue.meaning catalogue.now).n (take ((C.Catalogue.meaning catalogue.now).n * (C.Catalogue.meaning catalogue.now).n) table.new) }
{
    close(catalogue, table)
}

// The closing itself, apart as in rounds.
fn close<C: Catalogue>(catalogue: &C, table: &mut [C::Label]) -> Result<(), Refusal>
    ensures answers { answer result ≡ elimination_answer C.Label.Label.ops (C.Catalogue.meaning catalogue.now) (length table.old) }
    ensures leaves { table.new ≡ closing_leaves C.Label.Label.ops (C.Catalogue.meaning catalogue.now) (answer result) table.old }
{
    let cells = Side::of(catalogue).area();
    if table.len() < cells {
        return Err(Refusal::ShortBuffer);
    }
    fill(catalogue, &mut table[..cells]);
    Ok(())
}

// L(n) into a table of n × n cells.
fn fill<C: Catalogue>(catalogue: &C, cells: &mut [C::Label])
    requires square { Square (C.Catalogue.meaning catalogue.now).n cells.old }
    ensures { cells.new ≡ labels C.Label.Label.ops (C.Catalogue.meaning catalogue.now) }
{
    direct(catalogue, cells);
    eliminate(cells, Side::of(catalogue));
}

// Package by package, every pair is joined with its way through the package.
fn eliminate<K: Label>(cells: &mut [K], side: Side)
    requires square { Square side.n cells.old }
    ensures { Shows K.ops side.n cells.new (eliminated K.ops (cell K.ops side.n cells.old) side.n) }
{
    for k in 0..side.n {
        pass_through(cells, side, k);
    }
}

// Every pair is joined with its way through package `k`: row `k` stays, as no way is better than
// a part of it.
fn pass_through<K: Label>(cells: &mut [K], side: Side, k: usize)
    requires square { Square side.n cells.old }
    requires over { k < side.n }
    ensures { Shows K.ops side.n cells.new (through K.ops k (cell K.ops side.n cells.old)) }
{
    let (before, rest) = cells.split_at_mut(k * side.n);
    let (via, after) = rest.split_at_mut(side.n);
    relax_rows(before, via, k);
    relax_rows(after, via, k);
}

// Every pair of the rows is joined with its way through package `k`, whose row is `via`.
#[tactic(auto, using(tables::proofs::Areas::row_whole))]
fn relax_rows<K: Label>(rows: &mut [K], via: &[K], k: usize)
    requires over { k < length via.now }
    ensures { Reaches K.ops (length via.now) k (λ j. slice_index_or via.now j K.ops.none) rows.old rows.new }
{
    let n = via.len();
    // By index: after a loop over `chunks_exact_mut`, nothing is known of the rows.
    for i in 0..rows.len() / n {
        let first = rows[i * n + k];
        if leads(first) {
            relax_row(&mut rows[i * n..i * n + n], via, first);
        }
    }
}
