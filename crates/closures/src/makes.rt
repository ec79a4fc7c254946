// Small random catalogues of every kind, over every make and a stack of layers.
use crate::chains::Chains;
use crate::closed::check_closed;
use crate::groups::Groups;
use crate::kinds::Kind;
use crate::ordered::check_order;
use crate::plan_shapes::{PlanShapes, any_changed};
use crate::scenes::{PLACES, Ways, admission, any_call, in_force, labelled};
use crate::shapes::Shapes;
use crate::sorted::check_sort;
use cases::{Frozen, Reference, Rolls, Width, blank, check, check_eq, count, empty_ledger};
use catalogue::{Call, Catalogue, Holding, Layer, Ledger, Make, Sheet, Turned, run};
use labels::{Licence, Minutes, Reach};
use paths::Arc;
use std::alloc::{AllocError, Global};
use std::marker::PhantomData;
use std::test::Fail;

const SCENES: u32 = 200;

// The calls before layers are laid, which only admit, and those after.
#[derive(Drop)]
struct Scene<K> {
    heap: Global,
    n: u32,
    first: Vec<Call<u32>>,
    then: Vec<Call<u32>>,
    // the packages for which is planned; some are none, or held
    changed: Vec<u32>,
    kind: PhantomData<K>,
}

// In how many catalogues of one make something was seen.
#[derive(Clone, Copy, Default)]
struct Seen {
    shapes: Shapes,
    plans: PlanShapes,
    // two arcs in force with the same ends
    parallel: usize,
    // an arc that a hold hides
    hidden: usize,
    // a chain whose label is none
    lost: usize,
    // such a chain, and no loop
    lost_straight: usize,
    // loops, and the label of each is none
    lost_loops: usize,
    // a pair whose longer chains change its label
    changed: usize,
}

impl Seen {
    // Of any make.
    fn check<K: Kind>(&self) -> Result<(), Fail> {
        self.shapes.check()?;
        self.plans.check()?;
        check(self.parallel > 0)?;
        check_eq(self.lost > 0, K::LOSES)?;
        check_eq(self.lost_straight > 0, K::LOSES)?;
        check_eq(self.lost_loops > 0, K::LOSES)?;
        check_eq(self.changed > 0, K::CHANGES)
    }

    // Of a make that can hold.
    fn check_with_holds<K: Kind>(&self) -> Result<(), Fail> {
        check(self.hidden > 0)?;
        self.shapes.check_holds()?;
        self.plans.check_holds()?;
        self.check::<K>()
    }
}

impl<K: Kind> Scene<K> {
    fn new(heap: Global, rolls: &mut Rolls, changes: &mut Rolls) -> Result<Scene<K>, AllocError> {
        let n = rolls.below(10).clamp(1, 5);
        let ways = Ways::rolled(rolls);
        Ok(Scene {
            heap,
            n,
            first: (0..7)
                .map(|_| admission::<K>(rolls, n, ways))
                .collect(heap)?,
            then: (0..6).map(|_| any_call::<K>(rolls, n, ways)).collect(heap)?,
            changed: any_changed(heap, changes, n)?,
            kind: PhantomData,
        })
    }

    // A ledger after the first calls.
    fn ledger<'a>(&self, arcs: &'a mut [Arc<K>]) -> Result<Ledger<'a, K>, Fail> {
        let mut ledger = empty_ledger(self.n, arcs)?;
        let calls = labelled(self.heap, self.first.as_slice())?;
        run(&mut ledger, calls.as_slice());
        Ok(ledger)
    }

    // The reference beside such a ledger.
    fn reference(&self, most_held: usize) -> Result<Reference<u32>, AllocError> {
        let mut reference = Reference::new(self.heap, self.n, K::NO_WORD, PLACES, most_held);
        reference.run(self.first.as_slice())?;
        Ok(reference)
    }

    // Makes the calls after the layers on both, and compares them.
    fn check<C: Catalogue<Label = K>>(
        &self,
        top: &mut C,
        mut reference: Reference<u32>,
        seen: &mut Seen,
    ) -> Result<(), Fail> {
        let calls = labelled(self.heap, self.then.as_slice())?;
        run(top, calls.as_slice());
        reference.run(self.then.as_slice())?;
        let arcs = in_force(self.heap, &reference)?;
        let groups = compare(self.heap, top, arcs.as_slice(), seen)?;
        seen.plans.check_plans(
            self.heap,
            top,
            &reference,
            arcs.as_slice(),
            &groups,
            self.changed.as_slice(),
        )?;
        count(&mut seen.hidden, arcs.len() < reference.stock_len());
        seen.shapes.note_holds(self.heap, &mut reference, &groups)?;
        Ok(())
    }

    fn check_ledger(&self, seen: &mut Seen) -> Result<(), Fail> {
        let mut arcs = blank(self.heap, PLACES)?;
        let mut top = self.ledger(arcs.as_mut_slice())?;
        self.check(&mut top, self.reference(0)?, seen)
    }

    // The sheet of the arcs that a ledger would have.
    fn check_sheet(&self, seen: &mut Seen) -> Result<(), Fail> {
        let mut reference = self.reference(0)?;
        reference.run(self.then.as_slice())?;
        let arcs = in_force(self.heap, &reference)?;
        let bytes = sheet_bytes(self.heap, self.n, arcs.as_slice())?;
        let sheet = Sheet::<K>::make(bytes.as_slice())?;
        let groups = compare(self.heap, &sheet, arcs.as_slice(), seen)?;
        seen.plans.check_plans(
            self.heap,
            &sheet,
            &reference,
            arcs.as_slice(),
            &groups,
            self.changed.as_slice(),
        )
    }

    fn check_turned(&self, seen: &mut Seen) -> Result<(), Fail> {
        let mut arcs = blank(self.heap, PLACES)?;
        let mut top = Turned::over(self.ledger(arcs.as_mut_slice())?);
        let mut reference = self.reference(0)?;
        reference.turn();
        self.check(&mut top, reference, seen)
    }

    fn check_holding(&self, seen: &mut Seen) -> Result<(), Fail> {
        let mut arcs = blank(self.heap, PLACES)?;
        let mut top = Holding::over(self.ledger(arcs.as_mut_slice())?);
        self.check(&mut top, self.reference(32)?, seen)
    }

    // The calls after the layers are made once below the layer that seals, and once above it.
    fn check_stack(&self, seen: &mut Seen) -> Result<(), Fail> {
        let mut arcs = blank(self.heap, PLACES)?;
        let ledger = self.ledger(arcs.as_mut_slice())?;
        let mut holding = Holding::over(Turned::over(Holding::over(ledger)));
        let calls = labelled(self.heap, self.then.as_slice())?;
        run(&mut holding, calls.as_slice());
        let mut top = Frozen::over(holding);
        let mut reference = self.reference(64)?;
        reference.turn();
        reference.run(self.then.as_slice())?;
        reference.seal();
        self.check(&mut top, reference, seen)
    }

    // Layers over the sheet of a ledger's arcs: of the calls after them only holds and lifts are
    // taken.
    fn check_stack_on_sheet(&self, seen: &mut Seen) -> Result<(), Fail> {
        let mut reference = self.reference(32)?;
        let arcs = in_force(self.heap, &reference)?;
        let bytes = sheet_bytes(self.heap, self.n, arcs.as_slice())?;
        let sheet = Sheet::<K>::make(bytes.as_slice())?;
        let mut top = Turned::over(Holding::over(sheet));
        reference.seal();
        reference.turn();
        self.check(&mut top, reference, seen)
    }
}

// Compares with the chains of these arcs, which are those in force; answers the groups that they
// make.
fn compare<K: Kind, C: Catalogue<Label = K>>(
    heap: Global,
    c: &C,
    arcs: &[Arc<u32>],
    seen: &mut Seen,
) -> Result<Groups, Fail> {
    let chains = Chains::<K>::new(heap, c.n(), arcs)?;
    let groups = Groups::new(heap, c.n(), arcs)?;
    check_eq(groups.loops() > 0, chains.loops())?;
    let labels = check_closed(heap, c, &chains)?;
    check_sort(heap, c, arcs, &groups)?;
    check_order(heap, c, arcs, &groups, labels.as_slice())?;
    seen.shapes.note(heap, arcs, &groups)?;
    count(&mut seen.parallel, parallel(arcs));
    count(&mut seen.lost, chains.lost());
    count(&mut seen.lost_straight, chains.lost() && !chains.loops());
    count(&mut seen.lost_loops, chains.loops_without_label());
    count(&mut seen.changed, chains.changed());
    Ok(groups)
}

// Writes arcs as a sheet: n, each package's offset and length, and the runs.
fn sheet_bytes(heap: Global, n: u32, arcs: &[Arc<u32>]) -> Result<Vec<u8>, AllocError> {
    let mut pairs = Vec::new(heap);
    let mut runs = Vec::new(heap);
    let first = n.saturating_mul(8).saturating_add(4);
    pairs.extend_from_slice(&n.to_le_bytes())?;
    // by number, since a package without arcs has a pair too
    for p in 0..n {
        let before = len_as_word(&runs);
        for arc in arcs.iter().filter(|arc| arc.from == p) {
            runs.extend_from_slice(&arc.to.to_le_bytes())?;
            runs.extend_from_slice(&arc.label.to_le_bytes())?;
        }
        let length = len_as_word(&runs).saturating_sub(before);
        pairs.extend_from_slice(&first.saturating_add(before).to_le_bytes())?;
        pairs.extend_from_slice(&length.to_le_bytes())?;
    }
    pairs.extend_from_slice(runs.as_slice())?;
    Ok(pairs)
}

// How many bytes these are, as a sheet has it.
fn len_as_word(bytes: &Vec<u8>) -> u32 {
    u32::try_from(bytes.len()).unwrap_or(u32::MAX)
}

// Have two arcs the same ends?
fn parallel(arcs: &[Arc<u32>]) -> bool {
    arcs.iter().enumerate().any(|(k, arc)| {
        arcs.iter()
            .take(k)
            .any(|other| other.joins(arc.from, arc.to))
    })
}

// What one make comes by over all scenes.
fn seen_over<K: Kind, F: Fn(&Scene<K>, &mut Seen) -> Result<(), Fail>>(
    heap: Global,
    check_make: F,
) -> Result<Seen, Fail>
    requires { F.IsAlwaysCallable check_make }
{
    let mut rolls = Rolls::new(20);
    let mut changes = Rolls::new(21);
    let mut seen = Seen::default();
    for _ in 0..SCENES {
        let scene = Scene::new(heap, &mut rolls, &mut changes)?;
        check_make(&scene, &mut seen)?;
    }
    Ok(seen)
}

fn check_makes<K: Kind>(heap: Global) -> Result<(), Fail> {
    seen_over(heap, Scene::<K>::check_ledger)?.check::<K>()?;
    seen_over(heap, Scene::<K>::check_sheet)?.check::<K>()?;
    seen_over(heap, Scene::<K>::check_turned)?.check::<K>()?;
    seen_over(heap, Scene::<K>::check_holding)?.check_with_holds::<K>()?;
    seen_over(heap, Scene::<K>::check_stack)?.check_with_holds::<K>()?;
    seen_over(heap, Scene::<K>::check_stack_on_sheet)?.check_with_holds::<K>()
}

#[test]
fn reach(rt: HostRuntime) -> Result<(), Fail> {
    check_makes::<Reach>(rt.alloc())
}

#[test]
fn minutes(rt: HostRuntime) -> Result<(), Fail> {
    check_makes::<Minutes>(rt.alloc())
}

#[test]
fn licence(rt: HostRuntime) -> Result<(), Fail> {
    check_makes::<Licence>(rt.alloc())
}

#[test]
fn width(rt: HostRuntime) -> Result<(), Fail> {
    check_makes::<Width>(rt.alloc())
}
