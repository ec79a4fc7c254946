// What a catalogue tells once a run is over. The buffers stay apart, as in `by_rounds`.
ghost use Rattle.std.specs.Prelude.{◌≡◌, false, length, Ok};
ghost use Rattle.catalogue.specs.Refusals.{answer};
ghost use Rattle.runs.specs.Runs.{lengths};
ghost use Rattle.runs.specs.AllClosings.{lent};
ghost use Rattle.runs.specs.Promises.{reckoned};
ghost use Rattle.worked.specs.Asked.{Told, label_from, label_leaves, count_from, tables_from, spares_from, sets_from, FilesFrom, SortedFrom};

use catalogue::{Catalogue, Refusal};
use closing::{PackageRecord, label_of, sort};
use runs::{Closings, Step, close_all, run};

// Makes the calls, then closes in all three ways, by elimination into `second` and
// by order into `third`.
#[tactic(auto, using(crate::proofs::After::told_after))]
pub fn close_after<C: Catalogue>(
    catalogue: &mut C,
    steps: &[Step<'_, C::Label>],
    table: &mut [C::Label],
    changed: &mut [C::Label],
    found: &mut [C::Label],
    second: &mut [C::Label],
    third: &mut [C::Label],
    records: &mut [PackageRecord],
    words: &mut [u32],
    sets: &mut [u8],
) -> Closings
    ensures alters { C.Catalogue.meaning catalogue.new ≡ reckoned C.Label.Label.ops (C.Catalogue.meaning catalogue.old) steps.now }
    ensures tells { Told C.Label.Label.ops (C.Catalogue.meaning catalogue.old) steps.now (lent table.old changed.old found.old second.old third.old records.old words.old) (lent table.new changed.new found.new second.new third.new records.new words.new) sets.old sets.new result }
{
    run(
        catalogue, steps, table, changed, found, records, words, sets,
    );
    close_all(
        catalogue, table, changed, found, second, third, records, words,
    )
}

// Makes the calls, then tells the label of a pair.
#[tactic(auto, using(crate::proofs::After::label_after_is))]
pub fn label_after<C: Catalogue>(
    catalogue: &mut C,
    steps: &[Step<'_, C::Label>],
    table: &mut [C::Label],
    changed: &mut [C::Label],
    found: &mut [C::Label],
    records: &mut [PackageRecord],
    words: &mut [u32],
    sets: &mut [u8],
    from: u32,
    to: u32,
) -> Result<C::Label, Refusal>
    ensures alters { C.Catalogue.meaning catalogue.new ≡ reckoned C.Label.Label.ops (C.Catalogue.meaning catalogue.old) steps.now }
    ensures answers { answer result ≡ label_from C.Label.Label.ops (Ok (C.Catalogue.meaning catalogue.old)) steps.now (length table.old) from to }
    ensures leaves { table.new ≡ label_leaves C.Label.Label.ops (Ok (C.Catalogue.meaning catalogue.old)) steps.now (lengths table.old changed.old found.old records.old words.old sets.old) from to table.old }
    ensures spares { spares_from C.Label.Label.ops (Ok (C.Catalogue.meaning catalogue.old)) steps.now (lengths table.old changed.old found.old records.old words.old sets.old) ≡ false → (changed.new ≡ changed.old) × (found.new ≡ found.old) }
    ensures files { FilesFrom C.Label.Label.ops (Ok (C.Catalogue.meaning catalogue.old)) steps.now (lengths table.old changed.old found.old records.old words.old sets.old) records.old records.new words.old words.new }
    ensures sets { sets.new ≡ sets_from C.Label.Label.ops (Ok (C.Catalogue.meaning catalogue.old)) steps.now (lengths table.old changed.old found.old records.old words.old sets.old) sets.old }
{
    run(
        catalogue, steps, table, changed, found, records, words, sets,
    );
    label_of(catalogue, table, from, to)
}

// Makes the calls, then sorts.
#[tactic(auto, using(crate::proofs::After::sorted_after))]
pub fn sort_after<C: Catalogue>(
    catalogue: &mut C,
    steps: &[Step<'_, C::Label>],
    table: &mut [C::Label],
    changed: &mut [C::Label],
    found: &mut [C::Label],
    records: &mut [PackageRecord],
    words: &mut [u32],
    sets: &mut [u8],
) -> Result<u32, Refusal>
    ensures alters { C.Catalogue.meaning catalogue.new ≡ reckoned C.Label.Label.ops (C.Catalogue.meaning catalogue.old) steps.now }
    ensures answers { answer result ≡ count_from C.Label.Label.ops (Ok (C.Catalogue.meaning catalogue.old)) steps.now (length records.old) (length words.old) }
    ensures leaves { table.new ≡ tables_from C.Label.Label.ops (Ok (C.Catalogue.meaning catalogue.old)) steps.now (lengths table.old changed.old found.old records.old words.old sets.old) table.old }
    ensures spares { spares_from C.Label.Label.ops (Ok (C.Catalogue.meaning catalogue.old)) steps.now (lengths table.old changed.old found.old records.old words.old sets.old) ≡ false → (changed.new ≡ changed.old) × (found.new ≡ found.old) }
    ensures files { SortedFrom C.Label.Label.ops (Ok (C.Catalogue.meaning catalogue.old)) steps.now (lengths table.old changed.old found.old records.old words.old sets.old) records.old records.new words.old words.new }
    ensures sets { sets.new ≡ sets_from C.Label.Label.ops (Ok (C.Catalogue.meaning catalogue.old)) steps.now (lengths table.old changed.old found.old records.old words.old sets.old) sets.old }
{
    run(
        catalogue, steps, table, changed, found, records, words, sets,
    );
    sort(catalogue, records, words)
}
