// Sizes and holds at their limits.
use crate::checks::{check, check_eq};
use crate::places::{blank, empty_ledger};
use catalogue::{Catalogue, Holding, Layer, Refusal};
use labels::Minutes;
use paths::Arc;
use std::test::Fail;

// The answer to the making of a ledger of `n` packages.
fn made(n: u32, arcs: &mut [Arc<Minutes>]) -> Result<(), Refusal> {
    let _ = empty_ledger(n, arcs)?;
    Ok(())
}

#[test]
fn ledger_sizes(rt: HostRuntime) -> Result<(), Fail> {
    let mut arcs = blank(rt.alloc(), 3)?;
    let arcs = arcs.as_mut_slice();
    assert_eq!(rt; made(0, arcs), Err(Refusal::BadCount));
    assert_eq!(rt; made(1, arcs), Ok(()));
    assert_eq!(rt; made(1024, arcs), Ok(()));
    assert_eq!(rt; made(1025, arcs), Err(Refusal::BadCount));
    assert_eq!(rt; made(u32::MAX, arcs), Err(Refusal::BadCount));
    Ok(())
}

#[test]
fn largest_ledger(rt: HostRuntime) -> Result<(), Fail> {
    let mut arcs = blank::<Minutes>(rt.alloc(), 3)?;
    let mut ledger = empty_ledger(1024, arcs.as_mut_slice())?;
    assert_eq!(rt; ledger.places_left(), 3);
    assert_eq!(rt; ledger.admit(1022, 1023, Minutes { value: 7 }), Ok(()));
    assert_eq!(rt;
        ledger.admit(1023, 1024, Minutes { value: 7 }),
        Err(Refusal::NoPackage)
    );
    assert_eq!(rt; ledger.stock_len(), 1);
    assert_eq!(rt; ledger.places_left(), 2);
    assert!(rt; ledger.arc_at(0).is_some());
    assert!(rt; ledger.arc_at(1).is_none());
    Ok(())
}

#[test]
fn most_places(rt: HostRuntime) -> Result<(), Fail> {
    let mut arcs = blank::<Minutes>(rt.alloc(), 65537)?;
    let ledger = empty_ledger(2, arcs.as_mut_slice())?;
    assert_eq!(rt; ledger.places_left(), 65536);
    Ok(())
}

// Holds packages 0 to `count` - 1, and is refused the next.
pub(crate) fn hold_all<C: Catalogue>(c: &mut C, count: u32) -> Result<(), Fail> {
    // by number, since a package is one
    for p in 0..count {
        check(c.can_hold())?;
        check_eq(c.hold(p), Ok(()))?;
        check(c.is_held(p))?;
    }
    check(!c.can_hold())?;
    check_eq(c.hold(count), Err(Refusal::NoHolds))?;
    check(!c.is_held(count))
}

// A hold that is lifted leaves its place to another.
fn hold_another<C: Catalogue>(c: &mut C, lifted: u32, held: u32) -> Result<(), Fail> {
    check_eq(c.lift(lifted), Ok(()))?;
    check(!c.is_held(lifted))?;
    check(c.can_hold())?;
    check_eq(c.hold(held), Ok(()))?;
    check(c.is_held(held))?;
    check_eq(c.hold(lifted), Err(Refusal::NoHolds))
}

#[test]
fn most_holds(rt: HostRuntime) -> Result<(), Fail> {
    let mut arcs = blank::<Minutes>(rt.alloc(), 1)?;
    let ledger = empty_ledger(100, arcs.as_mut_slice())?;
    let mut top = Holding::over(ledger);
    hold_all(&mut top, 32)?;
    hold_another(&mut top, 5, 40)
}

#[test]
fn most_holds_of_two_layers(rt: HostRuntime) -> Result<(), Fail> {
    let mut arcs = blank::<Minutes>(rt.alloc(), 1)?;
    let ledger = empty_ledger(100, arcs.as_mut_slice())?;
    let mut top = Holding::over(Holding::over(ledger));
    hold_all(&mut top, 64)?;
    hold_another(&mut top, 5, 70)?;
    hold_another(&mut top, 50, 71)
}
