// Questions to a catalogue after any list of calls, with the promise that holds of them. The buffers
// stay apart, as in `by_rounds`.
ghost use Rattle.std.specs.Prelude.{◌≡◌, [], ◌∷◌, ◌++◌};
ghost use Rattle.catalogue.specs.Refusals.{answer};
ghost use Rattle.runs.specs.Runs.{memory, lengths};
ghost use Rattle.runs.specs.Promises.{reckoned, Followed, Told, Asked, Compared};

use crate::running::{make_call, run};
use crate::step::{Outcome, Step};
use catalogue::{Catalogue, Refusal};
use closing::PackageRecord;

// Makes the calls, whatever they answer, and then what is asked.
#[tactic(auto, using(crate::proofs::Asked::reckoned_to, crate::proofs::Asked::asked))]
pub fn ask<C: Catalogue>(
    catalogue: &mut C,
    calls: &[Step<'_, C::Label>],
    question: &Step<'_, C::Label>,
    table: &mut [C::Label],
    changed: &mut [C::Label],
    found: &mut [C::Label],
    records: &mut [PackageRecord],
    words: &mut [u32],
    sets: &mut [u8],
) -> Result<Outcome, Refusal>
    ensures alters { C.Catalogue.meaning catalogue.new ≡ reckoned C.Label.Label.ops (C.Catalogue.meaning catalogue.old) (calls.now ++ (question.now ∷ [])) }
    ensures promise { Asked C.Label.Label.ops (C.Catalogue.meaning catalogue.old) calls.now question.now (memory table.old changed.old found.old records.old words.old sets.old) (memory table.new changed.new found.new records.new words.new sets.new) (answer result) }
{
    follow(
        catalogue, calls, table, changed, found, records, words, sets,
    );
    tell(
        catalogue, question, table, changed, found, records, words, sets,
    )
}

// Makes the calls.
fn follow<C: Catalogue>(
    catalogue: &mut C,
    calls: &[Step<'_, C::Label>],
    table: &mut [C::Label],
    changed: &mut [C::Label],
    found: &mut [C::Label],
    records: &mut [PackageRecord],
    words: &mut [u32],
    sets: &mut [u8],
)
    ensures { Followed C.Label.Label.ops (C.Catalogue.meaning catalogue.old) calls.now (C.Catalogue.meaning catalogue.new) (memory table.old changed.old found.old records.old words.old sets.old) (memory table.new changed.new found.new records.new words.new sets.new) }
{
    run(
        catalogue, calls, table, changed, found, records, words, sets,
    );
}

// What is asked of whatever the catalogue means.
fn tell<C: Catalogue>(
    catalogue: &mut C,
    question: &Step<'_, C::Label>,
    table: &mut [C::Label],
    changed: &mut [C::Label],
    found: &mut [C::Label],
    records: &mut [PackageRecord],
    words: &mut [u32],
    sets: &mut [u8],
) -> Result<Outcome, Refusal>
    ensures alters { C.Catalogue.meaning catalogue.new ≡ reckoned C.Label.Label.ops (C.Catalogue.meaning catalogue.old) (question.now ∷ []) }
    ensures tells { Told C.Label.Label.ops (C.Catalogue.meaning catalogue.old) question.now (memory table.old changed.old found.old records.old words.old sets.old) (memory table.new changed.new found.new records.new words.new sets.new) (answer result) }
{
    make_call(
        catalogue, question, table, changed, found, records, words, sets,
    )
}

// Makes the calls of each of two catalogues, and then what is asked of each.
#[tactic(auto, using(crate::proofs::Asked::compared))]
pub fn compare<P: Catalogue, Q: Catalogue<Label = P::Label>>(
    first: &mut P,
    first_calls: &[Step<'_, P::Label>],
    first_question: &Step<'_, P::Label>,
    first_table: &mut [P::Label],
    first_changed: &mut [P::Label],
    first_found: &mut [P::Label],
    first_records: &mut [PackageRecord],
    first_words: &mut [u32],
    first_sets: &mut [u8],
    second: &mut Q,
    second_calls: &[Step<'_, P::Label>],
    second_question: &Step<'_, P::Label>,
    second_table: &mut [P::Label],
    second_changed: &mut [P::Label],
    second_found: &mut [P::Label],
    second_records: &mut [PackageRecord],
    second_words: &mut [u32],
    second_sets: &mut [u8],
) -> (Result<Outcome, Refusal>, Result<Outcome, Refusal>)
    ensures first_alters { P.Catalogue.meaning first.new ≡ reckoned P.Label.Label.ops (P.Catalogue.meaning first.old) («first_calls».now ++ («first_question».now ∷ [])) }
    ensures second_alters { Q.Catalogue.meaning second.new ≡ reckoned P.Label.Label.ops (Q.Catalogue.meaning second.old) («second_calls».now ++ («second_question».now ∷ [])) }
    ensures first { Asked P.Label.Label.ops (P.Catalogue.meaning first.old) «first_calls».now «first_question».now (memory «first_table».old «first_changed».old «first_found».old «first_records».old «first_words».old «first_sets».old) (memory «first_table».new «first_changed».new «first_found».new «first_records».new «first_words».new «first_sets».new) (answer result.0) }
    ensures second { Asked P.Label.Label.ops (Q.Catalogue.meaning second.old) «second_calls».now «second_question».now (memory «second_table».old «second_changed».old «second_found».old «second_records».old «second_words».old «second_sets».old) (memory «second_table».new «second_changed».new «second_found».new «second_records».new «second_words».new «second_sets».new) (answer result.1) }
    ensures alike { Compared P.Label.Label.ops (reckoned P.Label.Label.ops (P.Catalogue.meaning first.old) «first_calls».now) (reckoned P.Label.Label.ops (Q.Catalogue.meaning second.old) «second_calls».now) «first_question».now «second_question».now (lengths «first_table».old «first_changed».old «first_found».old «first_records».old «first_words».old «first_sets».old) (lengths «second_table».old «second_changed».old «second_found».old «second_records».old «second_words».old «second_sets».old) (answer result.0) (answer result.1) (memory «first_table».new «first_changed».new «first_found».new «first_records».new «first_words».new «first_sets».new) (memory «second_table».new «second_changed».new «second_found».new «second_records».new «second_words».new «second_sets».new) }
{
    let told = ask(
        first,
        first_calls,
        first_question,
        first_table,
        first_changed,
        first_found,
        first_records,
        first_words,
        first_sets,
    );
    let again = ask(
        second,
        second_calls,
        second_question,
        second_table,
        second_changed,
        second_found,
        second_records,
        second_words,
        second_sets,
    );
    (told, again)
}
