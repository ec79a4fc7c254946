// Stacks of catalogues against the reference, over long runs of calls.
use crate::checks::check;
use crate::driving::{Seen, drive};
use crate::frozen::Frozen;
use crate::places::{blank, empty_ledger};
use crate::reference::Reference;
use catalogue::{Call, Catalogue, Holding, Layer, Ledger, Refusal, Turned, run};
use labels::{Label, Minutes};
use paths::Arc;
use std::alloc::{AllocError, Global};
use std::test::Fail;

const PLACES: usize = 8;

const CALLS: u32 = 1500;

// The arcs that a stack has before its layers are laid.
fn first_calls() -> [Call<Minutes>; 4] {
    [
        Call::Admit(0, 1, Minutes { value: 5 }),
        Call::Admit(1, 2, Minutes { value: 0 }),
        Call::Admit(0, 1, Minutes { value: 9 }),
        Call::Admit(3, 0, Minutes { value: 4294967294 }),
    ]
}

// A ledger of `n` packages with those arcs.
fn stocked<'a>(n: u32, arcs: &'a mut [Arc<Minutes>]) -> Result<Ledger<'a, Minutes>, Refusal> {
    let mut ledger = empty_ledger(n, arcs)?;
    run(&mut ledger, &first_calls());
    Ok(ledger)
}

// The reference beside such a ledger.
fn reference(heap: Global, n: u32, most_held: usize) -> Result<Reference<Minutes>, AllocError> {
    let mut reference = Reference::new(heap, n, Minutes::NONE, PLACES, most_held);
    reference.run(&first_calls())?;
    Ok(reference)
}

// Nothing that a run should come by is missing.
fn check_seen(seen: Seen) -> Result<(), Fail> {
    check(seen.accepted > 0)?;
    check(seen.refused > 0)?;
    check(seen.held > 0)?;
    check(seen.hidden > 0)?;
    check(seen.in_force > 0)
}

// Of a run on a stack that is not sealed: nothing is missing, withdrawals and want of places among it.
fn check_unsealed(seen: Seen) -> Result<(), Fail> {
    check(seen.several > 0)?;
    check(seen.full > 0)?;
    check_seen(seen)
}

#[test]
fn ledger(rt: HostRuntime) -> Result<(), Fail> {
    let mut arcs = blank::<Minutes>(rt.alloc(), PLACES)?;
    let mut top = stocked(6, arcs.as_mut_slice())?;
    let mut reference = reference(rt.alloc(), 6, 0)?;
    let seen = drive(&mut top, &mut reference, CALLS)?;
    assert!(rt; seen.accepted > 0);
    assert!(rt; seen.refused > 0);
    assert!(rt; seen.several > 0);
    assert!(rt; seen.full > 0);
    assert!(rt; seen.no_holds > 0);
    assert!(rt; seen.in_force > 0);
    Ok(())
}

#[test]
fn holding_ledger(rt: HostRuntime) -> Result<(), Fail> {
    let mut arcs = blank::<Minutes>(rt.alloc(), PLACES)?;
    let mut top = Holding::over(stocked(6, arcs.as_mut_slice())?);
    let mut reference = reference(rt.alloc(), 6, 32)?;
    check_unsealed(drive(&mut top, &mut reference, CALLS)?)
}

#[test]
fn turned_holding_ledger(rt: HostRuntime) -> Result<(), Fail> {
    let mut arcs = blank::<Minutes>(rt.alloc(), PLACES)?;
    let mut top = Turned::over(Holding::over(stocked(6, arcs.as_mut_slice())?));
    let mut reference = reference(rt.alloc(), 6, 32)?;
    reference.turn();
    check_unsealed(drive(&mut top, &mut reference, CALLS)?)
}

#[test]
fn holding_turned_holding_ledger(rt: HostRuntime) -> Result<(), Fail> {
    let mut arcs = blank::<Minutes>(rt.alloc(), PLACES)?;
    let mut top = Holding::over(Turned::over(Holding::over(stocked(6, arcs.as_mut_slice())?)));
    let mut reference = reference(rt.alloc(), 6, 64)?;
    reference.turn();
    check_unsealed(drive(&mut top, &mut reference, CALLS)?)
}

// More packages than two lists take, so that holds pass down and run out.
#[test]
fn two_lists_run_out(rt: HostRuntime) -> Result<(), Fail> {
    let mut arcs = blank::<Minutes>(rt.alloc(), PLACES)?;
    let mut top = Holding::over(Turned::over(Holding::over(stocked(110, arcs.as_mut_slice())?)));
    let mut reference = reference(rt.alloc(), 110, 64)?;
    reference.turn();
    let seen = drive(&mut top, &mut reference, CALLS)?;
    assert!(rt; seen.no_holds > 0);
    check_seen(seen)
}

#[test]
fn frozen_holding_ledger(rt: HostRuntime) -> Result<(), Fail> {
    let mut arcs = blank::<Minutes>(rt.alloc(), PLACES)?;
    let mut top = Frozen::over(Holding::over(stocked(6, arcs.as_mut_slice())?));
    let mut reference = reference(rt.alloc(), 6, 32)?;
    reference.seal();
    check_seen(drive(&mut top, &mut reference, CALLS)?)
}
