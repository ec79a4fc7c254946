// Each make and a stack of four layers, from the making on. Each is `close_made` or `label_made` at
// its type, so that a contract names the making. The buffers stay apart, as in `by_rounds`.
ghost use Rattle.std.specs.Prelude.{◌≡◌, false, length};
ghost use Rattle.catalogue.specs.Refusals.{answer};
ghost use Rattle.catalogue.specs.Makings.{ledger_of, sheet_of, turned_over, holding_over, first_meaning};
ghost use Rattle.runs.specs.Runs.{memory, lengths};
ghost use Rattle.runs.specs.AllClosings.{lent};
ghost use Rattle.worked.specs.Asked.{ToldFrom, AskedFrom, label_from, label_leaves, count_from, tables_from, spares_from, sets_from, FilesFrom, SortedFrom};

use crate::asking::{close_after, label_after, sort_after};
use catalogue::{Blank, Holding, Ledger, Make, Refusal, Sheet, Turned};
use closing::PackageRecord;
use labels::Label;
use paths::Arc;
use runs::{Closings, Outcome, Step, ask};

// Makes a catalogue, makes the calls, then closes in all three ways.
pub fn close_made<S, M: Make<S> + Drop>(
    source: S,
    steps: &[Step<'_, M::Label>],
    table: &mut [M::Label],
    changed: &mut [M::Label],
    found: &mut [M::Label],
    second: &mut [M::Label],
    third: &mut [M::Label],
    records: &mut [PackageRecord],
    words: &mut [u32],
    sets: &mut [u8],
) -> Result<Closings, Refusal>
    ensures { ToldFrom M.Label.Label.ops (M.Make.first source) steps.now (lent table.old changed.old found.old second.old third.old records.old words.old) (lent table.new changed.new found.new second.new third.new records.new words.new) sets.old sets.new result }
{
    let mut made = M::make(source)?;
    Ok(close_after(
        &mut made, steps, table, changed, found, second, third, records, words, sets,
    ))
}

// Makes a catalogue, makes the calls, then tells the label of a pair.
pub fn label_made<S, M: Make<S> + Drop>(
    source: S,
    steps: &[Step<'_, M::Label>],
    table: &mut [M::Label],
    changed: &mut [M::Label],
    found: &mut [M::Label],
    records: &mut [PackageRecord],
    words: &mut [u32],
    sets: &mut [u8],
    from: u32,
    to: u32,
) -> Result<M::Label, Refusal>
    ensures answers { answer result ≡ label_from M.Label.Label.ops (M.Make.first source) steps.now (length table.old) from to }
    ensures leaves { table.new ≡ label_leaves M.Label.Label.ops (M.Make.first source) steps.now (lengths table.old changed.old found.old records.old words.old sets.old) from to table.old }
    ensures spares { spares_from M.Label.Label.ops (M.Make.first source) steps.now (lengths table.old changed.old found.old records.old words.old sets.old) ≡ false → (changed.new ≡ changed.old) × (found.new ≡ found.old) }
    ensures files { FilesFrom M.Label.Label.ops (M.Make.first source) steps.now (lengths table.old changed.old found.old records.old words.old sets.old) records.old records.new words.old words.new }
    ensures sets { sets.new ≡ sets_from M.Label.Label.ops (M.Make.first source) steps.now (lengths table.old changed.old found.old records.old words.old sets.old) sets.old }
{
    let mut made = M::make(source)?;
    label_after(
        &mut made, steps, table, changed, found, records, words, sets, from, to,
    )
}

// Makes a catalogue, makes the calls, then sorts.
pub fn sort_made<S, M: Make<S> + Drop>(
    source: S,
    steps: &[Step<'_, M::Label>],
    table: &mut [M::Label],
    changed: &mut [M::Label],
    found: &mut [M::Label],
    records: &mut [PackageRecord],
    words: &mut [u32],
    sets: &mut [u8],
) -> Result<u32, Refusal>
    ensures answers { answer result ≡ count_from M.Label.Label.ops (M.Make.first source) steps.now (length records.old) (length words.old) }
    ensures leaves { table.new ≡ tables_from M.Label.Label.ops (M.Make.first source) steps.now (lengths table.old changed.old found.old records.old words.old sets.old) table.old }
    ensures spares { spares_from M.Label.Label.ops (M.Make.first source) steps.now (lengths table.old changed.old found.old records.old words.old sets.old) ≡ false → (changed.new ≡ changed.old) × (found.new ≡ found.old) }
    ensures files { SortedFrom M.Label.Label.ops (M.Make.first source) steps.now (lengths table.old changed.old found.old records.old words.old sets.old) records.old records.new words.old words.new }
    ensures sets { sets.new ≡ sets_from M.Label.Label.ops (M.Make.first source) steps.now (lengths table.old changed.old found.old records.old words.old sets.old) sets.old }
{
    let mut made = M::make(source)?;
    sort_after(
        &mut made, steps, table, changed, found, records, words, sets,
    )
}

// Makes a catalogue, makes the calls, then what is asked.
#[tactic(auto, using(crate::proofs::After::asked_from, crate::proofs::After::not_asked))]
pub fn ask_made<S, M: Make<S> + Drop>(
    source: S,
    calls: &[Step<'_, M::Label>],
    question: &Step<'_, M::Label>,
    table: &mut [M::Label],
    changed: &mut [M::Label],
    found: &mut [M::Label],
    records: &mut [PackageRecord],
    words: &mut [u32],
    sets: &mut [u8],
) -> Result<Outcome, Refusal>
    ensures { AskedFrom M.Label.Label.ops (M.Make.first source) calls.now question.now (memory table.old changed.old found.old records.old words.old sets.old) (memory table.new changed.new found.new records.new words.new sets.new) (answer result) }
{
    let mut made = M::make(source)?;
    ask(
        &mut made, calls, question, table, changed, found, records, words, sets,
    )
}

pub fn close_ledger<K: Label>(
    n: u32,
    arcs: &mut [Arc<K>],
    steps: &[Step<'_, K>],
    table: &mut [K],
    changed: &mut [K],
    found: &mut [K],
    second: &mut [K],
    third: &mut [K],
    records: &mut [PackageRecord],
    words: &mut [u32],
    sets: &mut [u8],
) -> Result<Closings, Refusal>
    ensures { ToldFrom K.Label.ops (first_meaning K.Label.ops K.Label.named (ledger_of n (length arcs.old))) steps.now (lent table.old changed.old found.old second.old third.old records.old words.old) (lent table.new changed.new found.new second.new third.new records.new words.new) sets.old sets.new result }
{
    let ledger = Blank { n, arcs };
    close_made::<_, Ledger<K>>(
        ledger, steps, table, changed, found, second, third, records, words, sets,
    )
}

pub fn close_sheet<K: Label>(
    bytes: &[u8],
    steps: &[Step<'_, K>],
    table: &mut [K],
    changed: &mut [K],
    found: &mut [K],
    second: &mut [K],
    third: &mut [K],
    records: &mut [PackageRecord],
    words: &mut [u32],
    sets: &mut [u8],
) -> Result<Closings, Refusal>
    ensures { ToldFrom K.Label.ops (first_meaning K.Label.ops K.Label.named (sheet_of bytes.now)) steps.now (lent table.old changed.old found.old second.old third.old records.old words.old) (lent table.new changed.new found.new second.new third.new records.new words.new) sets.old sets.new result }
{
    close_made::<_, Sheet<K>>(
        bytes, steps, table, changed, found, second, third, records, words, sets,
    )
}

pub fn close_four_layers<K: Label>(
    n: u32,
    arcs: &mut [Arc<K>],
    steps: &[Step<'_, K>],
    table: &mut [K],
    changed: &mut [K],
    found: &mut [K],
    second: &mut [K],
    third: &mut [K],
    records: &mut [PackageRecord],
    words: &mut [u32],
    sets: &mut [u8],
) -> Result<Closings, Refusal>
    ensures { ToldFrom K.Label.ops (first_meaning K.Label.ops K.Label.named (holding_over (turned_over (holding_over (turned_over (ledger_of n (length arcs.old))))))) steps.now (lent table.old changed.old found.old second.old third.old records.old words.old) (lent table.new changed.new found.new second.new third.new records.new words.new) sets.old sets.new result }
{
    let bottom = Blank { n, arcs };
    close_made::<_, Holding<Turned<Holding<Turned<Ledger<K>>>>>>(
        bottom, steps, table, changed, found, second, third, records, words, sets,
    )
}

pub fn label_in_ledger<K: Label>(
    n: u32,
    arcs: &mut [Arc<K>],
    steps: &[Step<'_, K>],
    table: &mut [K],
    changed: &mut [K],
    found: &mut [K],
    records: &mut [PackageRecord],
    words: &mut [u32],
    sets: &mut [u8],
    from: u32,
    to: u32,
) -> Result<K, Refusal>
    ensures answers { answer result ≡ label_from K.Label.ops (first_meaning K.Label.ops K.Label.named (ledger_of n (length arcs.old))) steps.now (length table.old) from to }
    ensures leaves { table.new ≡ label_leaves K.Label.ops (first_meaning K.Label.ops K.Label.named (ledger_of n (length arcs.old))) steps.now (lengths table.old changed.old found.old records.old words.old sets.old) from to table.old }
    ensures spares { spares_from K.Label.ops (first_meaning K.Label.ops K.Label.named (ledger_of n (length arcs.old))) steps.now (lengths table.old changed.old found.old records.old words.old sets.old) ≡ false → (changed.new ≡ changed.old) × (found.new ≡ found.old) }
    ensures files { FilesFrom K.Label.ops (first_meaning K.Label.ops K.Label.named (ledger_of n (length arcs.old))) steps.now (lengths table.old changed.old found.old records.old words.old sets.old) records.old records.new words.old words.new }
    ensures sets { sets.new ≡ sets_from K.Label.ops (first_meaning K.Label.ops K.Label.named (ledger_of n (length arcs.old))) steps.now (lengths table.old changed.old found.old records.old words.old sets.old) sets.old }
{
    let blank = Blank { n, arcs };
    label_made::<_, Ledger<K>>(
        blank, steps, table, changed, found, records, words, sets, from, to,
    )
}
