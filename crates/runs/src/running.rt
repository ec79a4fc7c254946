// Runs of calls, closings, sort and plan among them, and what they leave. The buffers stay apart, as in
// `by_rounds`.
ghost use Rattle.std.specs.Prelude.{◌≡◌, false, not, min, is_ok, [], ◌∷◌, length};
ghost use Rattle.catalogue.specs.Refusals.{answer};
ghost use Rattle.catalogue.specs.Runs.{reckon};
ghost use Rattle.runs.specs.Runs.{alterations, answered, tabled, tables, set_left, sets_left, spares_used, some_spares_used, Filed, PlanFiled, FiledBy, Files, lengths};
ghost use Rattle.tables.specs.Closings.{rounds_answer, elimination_answer, closing_leaves};
ghost use Rattle.plans.specs.Answers.{plan_answer, plan_leaves};
ghost use Rattle.graphs.specs.Answers.{lacks, sort_answer, order_lacks, order_answer};

use crate::step::{Outcome, Room, Step};
use catalogue::{Catalogue, Refusal, make_call as alter};
use closing::{PackageRecord, by_elimination, by_order, by_rounds, sort};
use plan::plan;
use plans::PlanCounts;

// Makes each call in turn, whatever it answers.
pub fn run<C: Catalogue>(
    catalogue: &mut C,
    calls: &[Step<'_, C::Label>],
    table: &mut [C::Label],
    changed: &mut [C::Label],
    found: &mut [C::Label],
    records: &mut [PackageRecord],
    words: &mut [u32],
    sets: &mut [u8],
)
    ensures reckoned { C.Catalogue.meaning catalogue.new ≡ reckon C.Label.Label.ops (C.Catalogue.meaning catalogue.old) (alterations calls.now) }
    ensures leaves { table.new ≡ tables C.Label.Label.ops (C.Catalogue.meaning catalogue.old) (lengths table.old changed.old found.old records.old words.old sets.old) calls.now table.old }
    ensures spares { some_spares_used C.Label.Label.ops (C.Catalogue.meaning catalogue.old) (lengths table.old changed.old found.old records.old words.old sets.old) calls.now ≡ false → (changed.new ≡ changed.old) × (found.new ≡ found.old) }
    ensures files { Files C.Label.Label.ops (C.Catalogue.meaning catalogue.old) (lengths table.old changed.old found.old records.old words.old sets.old) calls.now records.old records.new words.old words.new }
    ensures sets { sets.new ≡ sets_left C.Label.Label.ops (C.Catalogue.meaning catalogue.old) (lengths table.old changed.old found.old records.old words.old sets.old) calls.now sets.old }
{
    for call in calls {
        let _ = make_call(catalogue, call, table, changed, found, records, words, sets);
    }
}

// Makes one call.
pub fn make_call<C: Catalogue>(
    catalogue: &mut C,
    call: &Step<'_, C::Label>,
    table: &mut [C::Label],
    changed: &mut [C::Label],
    found: &mut [C::Label],
    records: &mut [PackageRecord],
    words: &mut [u32],
    sets: &mut [u8],
) -> Result<Outcome, Refusal>
    ensures answers { answer result ≡ answered C.Label.Label.ops (C.Catalogue.meaning catalogue.old) (lengths table.old changed.old found.old records.old words.old sets.old) call.now }
    ensures reckoned { C.Catalogue.meaning catalogue.new ≡ reckon C.Label.Label.ops (C.Catalogue.meaning catalogue.old) (alterations (call.now ∷ [])) }
    ensures leaves { table.new ≡ tabled C.Label.Label.ops (C.Catalogue.meaning catalogue.old) (lengths table.old changed.old found.old records.old words.old sets.old) call.now table.old }
    ensures spares { spares_used C.Label.Label.ops (C.Catalogue.meaning catalogue.old) (lengths table.old changed.old found.old records.old words.old sets.old) call.now ≡ false → (changed.new ≡ changed.old) × (found.new ≡ found.old) }
    ensures files { FiledBy (C.Catalogue.meaning catalogue.old) (lengths table.old changed.old found.old records.old words.old sets.old) call.now records.old records.new words.old words.new }
    ensures sets { sets.new ≡ set_left C.Label.Label.ops (C.Catalogue.meaning catalogue.old) (lengths table.old changed.old found.old records.old words.old sets.old) call.now sets.old }
{
    match call {
        Step::Alter(change) => alter(catalogue, *change).map(|()| Outcome::Altered),
        Step::Rounds(cells) => {
            rounds_within(catalogue, *cells, table, changed, found).map(Outcome::Rounds)
        }
        Step::Eliminate(cells) => {
            eliminate_within(catalogue, *cells, table).map(|()| Outcome::Eliminated)
        }
        Step::Order(cells, room) => {
            order_within(catalogue, *cells, *room, table, records, words).map(|()| Outcome::Ordered)
        }
        Step::Sort(room) => { sort_within(catalogue, *room, records, words).map(Outcome::Sorted) }
        Step::Plan(cells, room, packages) => {
            plan_within(catalogue, *cells, *room, packages, records, words, sets).map(
                Outcome::Planned,
            )
        }
    }
}

// Closes by rounds in the first so many cells of each table.
fn rounds_within<C: Catalogue>(
    catalogue: &C,
    cells: usize,
    table: &mut [C::Label],
    changed: &mut [C::Label],
    found: &mut [C::Label],
) -> Result<usize, Refusal>
    ensures answers { answer result ≡ rounds_answer C.Label.Label.ops (C.Catalogue.meaning catalogue.now) (min cells (length table.old)) (min cells (length changed.old)) (min cells (length found.old)) }
    ensures leaves { table.new ≡ closing_leaves C.Label.Label.ops (C.Catalogue.meaning catalogue.now) (answer result) table.old }
    ensures spares { is_ok (answer result) ≡ false → (changed.new ≡ changed.old) × (found.new ≡ found.old) }
{
    let in_table = cells.min(table.len());
    let in_changed = cells.min(changed.len());
    let in_found = cells.min(found.len());
    by_rounds(
        catalogue,
        &mut table[..in_table],
        &mut changed[..in_changed],
        &mut found[..in_found],
    )
}

// Closes by elimination in the first so many cells of the table.
fn eliminate_within<C: Catalogue>(
    catalogue: &C,
    cells: usize,
    table: &mut [C::Label],
) -> Result<(), Refusal>
    ensures answers { answer result ≡ elimination_answer C.Label.Label.ops (C.Catalogue.meaning catalogue.now) (min cells (length table.old)) }
    ensures leaves { table.new ≡ closing_leaves C.Label.Label.ops (C.Catalogue.meaning catalogue.now) (answer result) table.old }
{
    let in_table = cells.min(table.len());
    by_elimination(catalogue, &mut table[..in_table])
}

// Closes by order in the first so many cells, records and words.
fn order_within<C: Catalogue>(
    catalogue: &C,
    cells: usize,
    room: Room,
    table: &mut [C::Label],
    records: &mut [PackageRecord],
    words: &mut [u32],
) -> Result<(), Refusal>
    ensures answers { answer result ≡ order_answer (C.Catalogue.meaning catalogue.now) (min cells (length table.old)) (min room.records (length records.old)) (min room.words (length words.old)) }
    ensures leaves { table.new ≡ closing_leaves C.Label.Label.ops (C.Catalogue.meaning catalogue.now) (answer result) table.old }
    ensures files { Filed (C.Catalogue.meaning catalogue.now) (not (order_lacks (C.Catalogue.meaning catalogue.now) (min cells (length table.old)) (min room.records (length records.old)) (min room.words (length words.old)))) records.old records.new words.old words.new }
{
    let in_table = cells.min(table.len());
    let in_records = room.records.min(records.len());
    let in_words = room.words.min(words.len());
    by_order(
        catalogue,
        &mut table[..in_table],
        &mut records[..in_records],
        &mut words[..in_words],
    )
}

// Sorts in the first so many records and words.
fn sort_within<C: Catalogue>(
    catalogue: &C,
    room: Room,
    records: &mut [PackageRecord],
    words: &mut [u32],
) -> Result<u32, Refusal>
    ensures answers { answer result ≡ sort_answer (C.Catalogue.meaning catalogue.now) (min room.records (length records.old)) (min room.words (length words.old)) }
    ensures files { Filed (C.Catalogue.meaning catalogue.now) (not (lacks (C.Catalogue.meaning catalogue.now) (min room.records (length records.old)) (min room.words (length words.old)))) records.old records.new words.old words.new }
{
    let in_records = room.records.min(records.len());
    let in_words = room.words.min(words.len());
    sort(
        catalogue,
        &mut records[..in_records],
        &mut words[..in_words],
    )
}

// Plans in the first so many bytes, records and words.
fn plan_within<C: Catalogue>(
    catalogue: &C,
    cells: usize,
    room: Room,
    packages: &[u32],
    records: &mut [PackageRecord],
    words: &mut [u32],
    sets: &mut [u8],
) -> Result<PlanCounts, Refusal>
    ensures answers { answer result ≡ plan_answer (C.Catalogue.meaning catalogue.now) packages.now (min cells (length sets.old)) (min room.records (length records.old)) (min room.words (length words.old)) }
    ensures leaves { sets.new ≡ plan_leaves (C.Catalogue.meaning catalogue.now) packages.now (answer result) sets.old }
    ensures files { PlanFiled (C.Catalogue.meaning catalogue.now) packages.now (is_ok (answer result)) records.old records.new words.old words.new }
{
    let in_sets = cells.min(sets.len());
    let in_records = room.records.min(records.len());
    let in_words = room.words.min(words.len());
    plan(
        catalogue,
        packages,
        &mut records[..in_records],
        &mut words[..in_words],
        &mut sets[..in_sets],
    )
}
