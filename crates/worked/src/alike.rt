// Two makes with the same arcs in two orders, and the plan of each.
ghost use Rattle.std.specs.Prelude.{◌≡◌, [], ◌∷◌, map, reverse, Ok};
ghost use Rattle.labels.specs.Kinds.{minutes_ops, minutes_of};
ghost use Rattle.catalogue.specs.Makings.{sheet_of, turned_over};
ghost use Rattle.runs.specs.declared.step.StepFor.TheVariants.{Alter};
ghost use Rattle.runs.specs.Promises.{reckoned};
ghost use Rattle.worked.specs.Worked.{five, six};
ghost use Rattle.worked.specs.Fives.{PlannedFrom, AlikeThen, ComparedFrom, TwoAlike};

use crate::five::{PlanOfFive, ROOM, blank_arcs, six_steps};
use catalogue::{Blank, Catalogue, Ledger, Make, Refusal, Sheet, Turned};
use closing::PackageRecord;
use labels::{Label, Minutes};
use runs::{Step, compare};

// What each of two plans answers and leaves.
#[derive(Clone, Copy, PartialEq, Eq, Debug)]
pub struct TwoPlans {
    pub first: PlanOfFive,
    pub second: PlanOfFive,
}

// The six arcs as a sheet.
const SHEET: [u8; 92] = [
    5, 0, 0, 0, //
    44, 0, 0, 0, 16, 0, 0, 0, //
    60, 0, 0, 0, 8, 0, 0, 0, //
    68, 0, 0, 0, 8, 0, 0, 0, //
    76, 0, 0, 0, 8, 0, 0, 0, //
    84, 0, 0, 0, 8, 0, 0, 0, //
    1, 0, 0, 0, 4, 0, 0, 0, //
    2, 0, 0, 0, 9, 0, 0, 0, //
    2, 0, 0, 0, 3, 0, 0, 0, //
    3, 0, 0, 0, 1, 0, 0, 0, //
    2, 0, 0, 0, 2, 0, 0, 0, //
    0, 0, 0, 0, 5, 0, 0, 0,
];

// The plan for package 3 by a ledger that admits the six arcs the last first, and by a sheet that
// has them in order, turned twice: they are the same.
#[tactic(auto, using(crate::proofs::TwoOrders::two_alike))]
pub fn two_plans() -> Result<TwoPlans, Refusal>
    ensures { TwoAlike five (reverse (six minutes_of)) (turned_over (turned_over (sheet_of SHEET))) [] (3 ∷ []) result }
{
    let mut arcs = blank_arcs();
    let blank = Blank {
        n: 5,
        arcs: &mut arcs,
    };
    compare_made::<_, _, Ledger<Minutes>, Turned<Turned<Sheet<Minutes>>>>(
        blank,
        &last_first(),
        &SHEET,
        &[3],
    )
}

fn last_first() -> [Step<'static, Minutes>; 6]
    ensures { result ≡ reverse (map Alter (six minutes_of)) }
{
    let mut steps = six_steps();
    steps.reverse();
    steps
}

// Makes two catalogues, makes the calls of the first, and plans for these packages with both.
#[tactic(auto, using(crate::proofs::TwoOrders::compared_from, crate::proofs::TwoOrders::first_not_made, crate::proofs::TwoOrders::second_not_made))]
fn compare_made<S, T: Drop, P: Make<S, Label = Minutes> + Drop, Q: Make<T, Label = Minutes> + Drop>(
    source: S,
    steps: &[Step<'_, Minutes>],
    other: T,
    packages: &[u32],
) -> Result<TwoPlans, Refusal>
    ensures { ComparedFrom minutes_ops (P.Make.first source) steps.now (Q.Make.first other) packages.now result }
{
    let mut first = P::make(source)?;
    let mut second = Q::make(other)?;
    Ok(compare_five(&mut first, steps, &mut second, packages))
}

#[tactic(auto, using(crate::proofs::Planned::planned_of, crate::proofs::TwoOrders::alike_then))]
fn compare_five<P: Catalogue<Label = Minutes>, Q: Catalogue<Label = Minutes>>(
    first: &mut P,
    steps: &[Step<'_, Minutes>],
    second: &mut Q,
    packages: &[u32],
) -> TwoPlans
    ensures first { PlannedFrom minutes_ops (Ok (P.Catalogue.meaning first.old)) steps.now packages.now result.first }
    ensures second { PlannedFrom minutes_ops (Ok (Q.Catalogue.meaning second.old)) [] packages.now result.second }
    ensures alike { AlikeThen (reckoned minutes_ops (P.Catalogue.meaning first.old) steps.now) (Q.Catalogue.meaning second.old) packages.now result }
{
    let question = Step::Plan(25, ROOM, packages);
    let mut table = [Minutes::NONE; 25];
    let mut changed = [Minutes::NONE; 25];
    let mut found = [Minutes::NONE; 25];
    let mut records = [PackageRecord::default(); 5];
    let mut words = [0; 86];
    let mut sets = [0; 25];
    let mut other_table = [Minutes::NONE; 25];
    let mut other_changed = [Minutes::NONE; 25];
    let mut other_found = [Minutes::NONE; 25];
    let mut other_records = [PackageRecord::default(); 5];
    let mut other_words = [0; 86];
    let mut other_sets = [0; 25];
    let (told, other_told) = compare(
        first,
        steps,
        &question,
        &mut table,
        &mut changed,
        &mut found,
        &mut records,
        &mut words,
        &mut sets,
        second,
        &[],
        &question,
        &mut other_table,
        &mut other_changed,
        &mut other_found,
        &mut other_records,
        &mut other_words,
        &mut other_sets,
    );
    TwoPlans {
        first: PlanOfFive {
            told,
            records,
            sets,
        },
        second: PlanOfFive {
            told: other_told,
            records: other_records,
            sets: other_sets,
        },
    }
}
