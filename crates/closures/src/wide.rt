// Random catalogues of more packages: sort and plan beside what the rules alone give, and closing by
// order beside elimination.
use crate::closed::unwritten;
use crate::groups::Groups;
use crate::ordered::check_order;
use crate::plan_shapes::{PlanShapes, any_changed};
use crate::scenes::{Ways, any_call, in_force, labelled};
use crate::shapes::Shapes;
use crate::sorted::check_sort;
use crate::worked::NONE;
use cases::{Reference, Rolls, blank, empty_ledger};
use catalogue::{Call, Holding, Layer, Turned, run};
use closing::by_elimination;
use labels::Minutes;
use std::alloc::Global;
use std::test::Fail;

const SCENES: u32 = 100;

// The arcs that each ledger has room for.
const PLACES: usize = 20;

// Compares after these calls on two layers over a ledger, and plans for these packages.
fn compare(
    heap: Global,
    n: u32,
    calls: &[Call<u32>],
    changed: &[u32],
    seen: &mut Shapes,
    plans: &mut PlanShapes,
) -> Result<(), Fail> {
    let mut places = blank::<Minutes>(heap, PLACES)?;
    let ledger = empty_ledger(n, places.as_mut_slice())?;
    let mut top = Holding::over(Turned::over(ledger));
    let labelled_calls = labelled(heap, calls)?;
    run(&mut top, labelled_calls.as_slice());
    let mut reference = Reference::new(heap, n, NONE, PLACES, 32);
    reference.run(calls)?;
    let arcs = in_force(heap, &reference)?;
    let groups = Groups::new(heap, n, arcs.as_slice())?;
    check_sort(heap, &top, arcs.as_slice(), &groups)?;
    let mut table = unwritten(heap)?;
    by_elimination(&top, table.as_mut_slice())?;
    check_order(heap, &top, arcs.as_slice(), &groups, table.as_slice())?;
    plans.check_plans(heap, &top, &reference, arcs.as_slice(), &groups, changed)?;
    seen.note(heap, arcs.as_slice(), &groups)?;
    seen.note_holds(heap, &mut reference, &groups)?;
    Ok(())
}

#[test]
fn minutes(rt: HostRuntime) -> Result<(), Fail> {
    let heap = rt.alloc();
    let mut rolls = Rolls::new(20);
    let mut changes = Rolls::new(21);
    let mut seen = Shapes::default();
    let mut plans = PlanShapes::default();
    for _ in 0..SCENES {
        let n = rolls.below(6).saturating_add(5);
        let ways = Ways::rolled(&mut rolls);
        let calls: Vec<Call<u32>> = (0..28)
            .map(|_| any_call::<Minutes>(&mut rolls, n, ways))
            .collect(heap)?;
        let changed = any_changed(heap, &mut changes, n)?;
        compare(
            heap,
            n,
            calls.as_slice(),
            changed.as_slice(),
            &mut seen,
            &mut plans,
        )?;
    }
    seen.check()?;
    seen.check_holds()?;
    plans.check()?;
    plans.check_holds()
}
