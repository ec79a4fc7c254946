// A call or a question, put to a catalogue through `ask`. The buffers stay apart, as there.
ghost use Rattle.std.specs.Prelude.{◌≡◌, ◌<◌, ◌||◌, [], ◌∷◌, length, is_ok, Ok, nat_le, slice_index_or};
ghost use Rattle.catalogue.specs.Refusals.{answer, on_ok};
ghost use Rattle.catalogue.specs.Meanings.{in_force};
ghost use Rattle.catalogue.specs.Runs.{call_answer, step};
ghost use Rattle.tables.specs.Closings.{elimination_answer, label_answer, closing_leaves};
ghost use Rattle.tables.specs.Rows.{row_answer};
ghost use Rattle.plans.specs.declared.counts.PlanCounts.{PlanCounts};
ghost use Rattle.plans.specs.Answers.{plan_answer, plan_leaves};
ghost use Rattle.plans.specs.LeastWaits.{LeastWaits};
ghost use Rattle.runs.specs.Runs.{memory, PlanFiled};
ghost use Rattle.runs.specs.Promises.{reckoned, Called, Promise};
ghost use Rattle.runs.specs.declared.step.Outcome.TheVariants as outcomes;
ghost use Rattle.console.specs.Jobs.{plan_text, text_of_plan};

use catalogue::{Call, Catalogue, Refusal, outside};
use closing::{PackageRecord, row};
use labels::Label;
use runs::{Outcome, Room, Step, ask};

// Makes a call.
pub(crate) fn call<C: Catalogue>(
    catalogue: &mut C,
    call: Call<C::Label>,
    table: &mut [C::Label],
    records: &mut [PackageRecord],
    words: &mut [u32],
    sets: &mut [u8],
) -> Result<(), Refusal>
    ensures answers { answer result ≡ call_answer C.Label.Label.ops (C.Catalogue.meaning catalogue.old) call }
    ensures alters { C.Catalogue.meaning catalogue.new ≡ step C.Label.Label.ops (C.Catalogue.meaning catalogue.old) call }
    ensures table { table.new ≡ table.old }
    ensures records { records.new ≡ records.old }
    ensures words { words.new ≡ words.old }
    ensures sets { sets.new ≡ sets.old }
{
    let asked: Step<'static, C::Label> = Step::Alter(call);
    ask_one(catalogue, &asked, table, records, words, sets)?;
    Ok(())
}

// Tells the label of a pair: closes by elimination, and reads it from the row of `from`.
pub(crate) fn label<C: Catalogue>(
    catalogue: &mut C,
    from: u32,
    to: u32,
    table: &mut [C::Label],
    records: &mut [PackageRecord],
    words: &mut [u32],
    sets: &mut [u8],
) -> Result<C::Label, Refusal>
    ensures answers { answer result ≡ label_answer C.Label.Label.ops (C.Catalogue.meaning catalogue.old) (length table.old) from to }
    ensures alters { C.Catalogue.meaning catalogue.new ≡ C.Catalogue.meaning catalogue.old }
    ensures table { table.new ≡ closing_leaves C.Label.Label.ops (C.Catalogue.meaning catalogue.old) (answer result) table.old }
    ensures records { records.new ≡ records.old }
    ensures words { words.new ≡ words.old }
    ensures sets { sets.new ≡ sets.old }
{
    let n = catalogue.n();
    if either_outside(n, from, to) {
        return Err(Refusal::NoPackage);
    }
    close(catalogue, table, records, words, sets)?;
    cell(table, n, from, to)
}

// Is one of the two no package?
fn either_outside(n: u32, from: u32, to: u32) -> bool
    ensures { result ≡ (nat_le n from || nat_le n to) }
{
    outside(n, from) || outside(n, to)
}

// Closes by elimination.
fn close<C: Catalogue>(
    catalogue: &mut C,
    table: &mut [C::Label],
    records: &mut [PackageRecord],
    words: &mut [u32],
    sets: &mut [u8],
) -> Result<(), Refusal>
    ensures answers { answer result ≡ elimination_answer C.Label.Label.ops (C.Catalogue.meaning catalogue.old) (length table.old) }
    ensures alters { C.Catalogue.meaning catalogue.new ≡ C.Catalogue.meaning catalogue.old }
    ensures table { table.new ≡ closing_leaves C.Label.Label.ops (C.Catalogue.meaning catalogue.old) (answer result) table.old }
    ensures records { records.new ≡ records.old }
    ensures words { words.new ≡ words.old }
    ensures sets { sets.new ≡ sets.old }
{
    let asked: Step<'static, C::Label> = Step::Eliminate(table.len());
    ask_one(catalogue, &asked, table, records, words, sets)?;
    Ok(())
}

// The cell of a pair, read from the row of `from`.
#[tactic(auto, using(tables::proofs::Reading::row_length))]
fn cell<K: Label>(table: &[K], n: u32, from: u32, to: u32) -> Result<K, Refusal>
    requires { to < n }
    ensures { answer result ≡ on_ok (λ cells. slice_index_or cells to K.ops.none) (row_answer table.now n from) }
{
    let cells = row(table, n, from)?;
    Ok(cells[to as usize])
}

// Plans for changed packages.
pub(crate) fn plan<'s, C: Catalogue>(
    catalogue: &mut C,
    changed: &'s [u32],
    table: &mut [C::Label],
    records: &mut [PackageRecord],
    words: &mut [u32],
    sets: &mut [u8],
) -> Result<Outcome, Refusal>
    ensures answers { answer result ≡ on_ok (λ told. outcomes.Planned told) (plan_answer (C.Catalogue.meaning catalogue.old) changed.now (length sets.old) (length records.old) (length words.old)) }
    ensures alters { C.Catalogue.meaning catalogue.new ≡ C.Catalogue.meaning catalogue.old }
    ensures table { table.new ≡ table.old }
    ensures files { PlanFiled (C.Catalogue.meaning catalogue.old) changed.now (is_ok (plan_answer (C.Catalogue.meaning catalogue.old) changed.now (length sets.old) (length records.old) (length words.old))) records.old records.new words.old words.new }
    ensures sets { sets.new ≡ plan_leaves (C.Catalogue.meaning catalogue.old) changed.now (answer result) sets.old }
    ensures least { (told : PlanCounts) → answer result ≡ Ok (outcomes.Planned told) → LeastWaits (in_force (C.Catalogue.meaning catalogue.old)) (C.Catalogue.meaning catalogue.old).n changed.now sets.new records.new told }
    ensures shown { (told : PlanCounts) → answer result ≡ Ok (outcomes.Planned told) → plan_text records.new sets.new (C.Catalogue.meaning catalogue.old).n told ≡ text_of_plan (in_force (C.Catalogue.meaning catalogue.old)) (C.Catalogue.meaning catalogue.old).n changed.now }
{
    let room = Room {
        records: records.len(),
        words: words.len(),
    };
    let asked: Step<'s, C::Label> = Step::Plan(sets.len(), room, changed);
    ask_one(catalogue, &asked, table, records, words, sets)
}

// Asks one thing, with no calls before.
fn ask_one<'s, C: Catalogue>(
    catalogue: &mut C,
    asked: &Step<'s, C::Label>,
    table: &mut [C::Label],
    records: &mut [PackageRecord],
    words: &mut [u32],
    sets: &mut [u8],
) -> Result<Outcome, Refusal>
    ensures alters { C.Catalogue.meaning catalogue.new ≡ reckoned C.Label.Label.ops (C.Catalogue.meaning catalogue.old) (asked.now ∷ []) }
    ensures promise { Promise C.Label.Label.ops (C.Catalogue.meaning catalogue.old) [] asked.now (memory table.old [] [] records.old words.old sets.old) (memory table.new [] [] records.new words.new sets.new) (answer result) }
{
    let calls: [Step<'s, C::Label>; 0] = [];
    ask(
        catalogue,
        &calls,
        asked,
        table,
        &mut [],
        &mut [],
        records,
        words,
        sets,
    )
}
