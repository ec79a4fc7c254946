// A ledger of five packages and six arcs.
ghost use Rattle.std.specs.Prelude.{◌≡◌, true, [], ◌∷◌, map, length, is_ok};
ghost use Rattle.labels.specs.Kinds.{minutes_ops, minutes_named, minutes_of};
ghost use Rattle.catalogue.specs.declared.call.Call.TheVariants.{Admit};
ghost use Rattle.catalogue.specs.Refusals.{answer};
ghost use Rattle.catalogue.specs.Makings.{first_meaning};
ghost use Rattle.runs.specs.declared.step.StepFor.TheVariants.{Alter};
ghost use Rattle.worked.specs.Asked.{label_from, count_from, Named};
ghost use Rattle.worked.specs.Worked.{five, six, WorkedCases};
ghost use Rattle.worked.specs.Fives.{counted, PlannedFrom, PlanIs};

use crate::makes::{ask_made, label_in_ledger, sort_made};
use catalogue::{Blank, Call, Ledger, Refusal};
use closing::PackageRecord;
use labels::{Label, Minutes};
use paths::Arc;
use runs::{Outcome, Room, Step};

// What plan answers, and leaves in the records and the set table, of five packages.
#[derive(Clone, Copy, PartialEq, Eq, Debug)]
pub struct PlanOfFive {
    pub told: Result<Outcome, Refusal>,
    pub records: [PackageRecord; 5],
    pub sets: [u8; 25],
}

// The label of a pair there; the worked cases are of this ledger and some others.
pub fn label_of_five(from: u32, to: u32) -> Result<Minutes, Refusal>
    ensures answers { answer result ≡ label_from minutes_ops (first_meaning minutes_ops minutes_named five) (map Alter (six minutes_of)) 25 from to }
    ensures cases { WorkedCases }
{
    label_in_five(&six_steps(), from, to)
}

// The names of the groups of five packages: 2 and 3 are in one.
#[tactic(auto, using(crate::proofs::SixArcs::six_named))]
pub fn groups_of_five() -> [u32; 5]
    ensures { result ≡ 0 ∷ 1 ∷ 2 ∷ 2 ∷ 4 ∷ [] }
{
    names(sort_five(&six_steps()))
}

// The plan for package 3: its group first, then 1, 0 and 4, each in a wave of its own.
#[tactic(auto, using(crate::proofs::SixArcs::six_planned))]
pub fn plan_of_five() -> PlanOfFive
    ensures { PlanIs (counted 4 4 3 1 2) (0 ∷ 1 ∷ 2 ∷ 2 ∷ 4 ∷ []) (2 ∷ 1 ∷ 0 ∷ 0 ∷ 3 ∷ []) (0 ∷ 2 ∷ 1 ∷ 0 ∷ 0 ∷ 0 ∷ 0 ∷ 2 ∷ 0 ∷ 0 ∷ 0 ∷ 0 ∷ 0 ∷ 0 ∷ 0 ∷ 0 ∷ 0 ∷ 0 ∷ 0 ∷ 0 ∷ 2 ∷ 1 ∷ 1 ∷ 0 ∷ 0 ∷ []) result }
{
    plan_five(&six_steps(), &[3])
}

fn names(records: [PackageRecord; 5]) -> [u32; 5]
    ensures { result ≡ map (λ r. r.group) records }
{
    records.map(|record| record.group)
}

// The records of five packages sorted after these calls, where sort takes them.
#[tactic(auto, using(crate::proofs::After::named_after))]
fn sort_five(steps: &[Step<'_, Minutes>]) -> [PackageRecord; 5]
    ensures all { length result ≡ 5 }
    ensures named { is_ok (count_from minutes_ops (first_meaning minutes_ops minutes_named five) steps.now 5 86) ≡ true → Named minutes_ops (first_meaning minutes_ops minutes_named five) steps.now result }
{
    let mut arcs = blank_arcs();
    let mut table = [Minutes::NONE; 25];
    let mut changed = [Minutes::NONE; 25];
    let mut found = [Minutes::NONE; 25];
    let mut records = [PackageRecord::default(); 5];
    let mut words = [0; 86];
    let mut sets = [0; 25];
    let _ = sort_made::<_, Ledger<Minutes>>(
        Blank {
            n: 5,
            arcs: &mut arcs,
        },
        steps,
        &mut table,
        &mut changed,
        &mut found,
        &mut records,
        &mut words,
        &mut sets,
    );
    records
}

// The label of a pair of five packages after these calls.
fn label_in_five(steps: &[Step<'_, Minutes>], from: u32, to: u32) -> Result<Minutes, Refusal>
    ensures { answer result ≡ label_from minutes_ops (first_meaning minutes_ops minutes_named five) steps.now 25 from to }
{
    let mut arcs = blank_arcs();
    let mut table = [Minutes::NONE; 25];
    let mut changed = [Minutes::NONE; 25];
    let mut found = [Minutes::NONE; 25];
    let mut records = [PackageRecord::default(); 5];
    let mut words = [0; 86];
    let mut sets = [0; 25];
    label_in_ledger(
        5,
        &mut arcs,
        steps,
        &mut table,
        &mut changed,
        &mut found,
        &mut records,
        &mut words,
        &mut sets,
        from,
        to,
    )
}

// The plan of five packages for these changed ones after these calls.
#[tactic(auto, using(crate::proofs::Planned::planned_from))]
fn plan_five(steps: &[Step<'_, Minutes>], packages: &[u32]) -> PlanOfFive
    ensures { PlannedFrom minutes_ops (first_meaning minutes_ops minutes_named five) steps.now packages.now result }
{
    let mut arcs = blank_arcs();
    let mut table = [Minutes::NONE; 25];
    let mut changed = [Minutes::NONE; 25];
    let mut found = [Minutes::NONE; 25];
    let mut records = [PackageRecord::default(); 5];
    let mut words = [0; 86];
    let mut sets = [0; 25];
    let told = ask_made::<_, Ledger<Minutes>>(
        Blank {
            n: 5,
            arcs: &mut arcs,
        },
        steps,
        &Step::Plan(25, ROOM, packages),
        &mut table,
        &mut changed,
        &mut found,
        &mut records,
        &mut words,
        &mut sets,
    );
    PlanOfFive {
        told,
        records,
        sets,
    }
}

// The records and work words that a plan of five packages with six arcs needs.
pub(crate) const ROOM: Room = Room {
    records: 5,
    words: 86,
};

// Room for eight arcs.
pub(crate) fn blank_arcs() -> [Arc<Minutes>; 8] {
    [Arc {
        from: 0,
        to: 0,
        label: Minutes::NONE,
    }; 8]
}

pub(crate) fn six_steps() -> [Step<'static, Minutes>; 6]
    ensures { result ≡ map Alter (six minutes_of) }
{
    [
        admit(0, 1, 4),
        admit(1, 2, 3),
        admit(0, 2, 9),
        admit(2, 3, 1),
        admit(3, 2, 2),
        admit(4, 0, 5),
    ]
}

fn admit(from: u32, to: u32, value: u32) -> Step<'static, Minutes>
    ensures { result ≡ Alter (Admit from to (minutes_of value)) }
{
    Step::Alter(Call::Admit(from, to, Minutes { value }))
}
