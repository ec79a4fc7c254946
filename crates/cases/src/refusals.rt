// Calls for which several checks fail: the first is the answer.
use crate::checks::check_eq;
use crate::frozen::Frozen;
use crate::limits::hold_all;
use crate::places::{blank, empty_ledger};
use catalogue::{Call, Catalogue, Holding, Layer, Make, Refusal, Sheet, make_call};
use labels::Minutes;
use std::test::Fail;

const NONE: u32 = 4294967295;

fn admit(from: u32, to: u32, value: u32) -> Call<Minutes> {
    Call::Admit(from, to, Minutes { value })
}

// A call, and its answer.
#[derive(Clone, Copy)]
struct Case {
    call: Call<Minutes>,
    answer: Result<(), Refusal>,
}

fn gives(call: Call<Minutes>, answer: Result<(), Refusal>) -> Case {
    Case { call, answer }
}

fn check_cases<C: Catalogue<Label = Minutes>>(c: &mut C, cases: &[Case]) -> Result<(), Fail> {
    for case in cases {
        check_eq(make_call(c, case.call), case.answer)?;
    }
    Ok(())
}

// On 3 packages, with no place left, and one arc, from 0 to 1.
fn full() -> [Case; 12] {
    [
        gives(admit(3, 3, NONE), Err(Refusal::NoPackage)),
        gives(admit(0, 3, NONE), Err(Refusal::NoPackage)),
        gives(admit(4294967295, 0, 5), Err(Refusal::NoPackage)),
        gives(admit(2, 2, NONE), Err(Refusal::EqualEnds)),
        gives(admit(2, 2, 5), Err(Refusal::EqualEnds)),
        gives(admit(0, 1, NONE), Err(Refusal::LabelNone)),
        gives(admit(0, 1, 5), Err(Refusal::Full)),
        gives(Call::Withdraw(3, 0), Err(Refusal::NoPackage)),
        gives(Call::Withdraw(0, 3), Err(Refusal::NoPackage)),
        gives(Call::Withdraw(0, 2), Err(Refusal::NoSuchArc)),
        gives(Call::Withdraw(1, 0), Err(Refusal::NoSuchArc)),
        gives(Call::Withdraw(0, 1), Ok(())),
    ]
}

// Sealed, on 3 packages or fewer.
fn sealed() -> [Case; 6] {
    [
        gives(admit(3, 3, NONE), Err(Refusal::Sealed)),
        gives(admit(1, 1, NONE), Err(Refusal::Sealed)),
        gives(admit(0, 1, 5), Err(Refusal::Sealed)),
        gives(Call::Withdraw(3, 3), Err(Refusal::Sealed)),
        gives(Call::Withdraw(1, 0), Err(Refusal::Sealed)),
        gives(Call::Withdraw(0, 1), Err(Refusal::Sealed)),
    ]
}

// With no holds, on 3 packages or fewer.
fn without_holds() -> [Case; 4] {
    [
        gives(Call::Hold(3), Err(Refusal::NoPackage)),
        gives(Call::Hold(0), Err(Refusal::NoHolds)),
        gives(Call::Lift(3), Err(Refusal::NoPackage)),
        gives(Call::Lift(0), Err(Refusal::NotHeld)),
    ]
}

// On 40 packages, with the first 32 held, and no holds left.
fn with_32_held() -> [Case; 7] {
    [
        gives(Call::Hold(40), Err(Refusal::NoPackage)),
        gives(Call::Hold(31), Err(Refusal::AlreadyHeld)),
        gives(Call::Hold(32), Err(Refusal::NoHolds)),
        gives(Call::Lift(40), Err(Refusal::NoPackage)),
        gives(Call::Lift(32), Err(Refusal::NotHeld)),
        gives(Call::Lift(31), Ok(())),
        gives(Call::Lift(31), Err(Refusal::NotHeld)),
    ]
}

#[test]
fn full_ledger(rt: HostRuntime) -> Result<(), Fail> {
    let mut arcs = blank::<Minutes>(rt.alloc(), 1)?;
    let mut ledger = empty_ledger(3, arcs.as_mut_slice())?;
    check_cases(&mut ledger, &[gives(admit(0, 1, 5), Ok(()))])?;
    check_cases(&mut ledger, &without_holds())?;
    check_cases(&mut ledger, &full())
}

#[test]
fn sealed_sheet(rt: HostRuntime) -> Result<(), Fail> {
    let bytes = b"\x02\0\0\0\x14\0\0\0\x08\0\0\0\x1c\0\0\0\0\0\0\0\x01\0\0\0\x05\0\0\0";
    let mut sheet: Sheet<Minutes> = Sheet::make(bytes)?;
    check_cases(&mut sheet, &sealed())?;
    check_cases(&mut sheet, &without_holds())
}

#[test]
fn frozen_ledger(rt: HostRuntime) -> Result<(), Fail> {
    let mut arcs = blank::<Minutes>(rt.alloc(), 2)?;
    let mut ledger = empty_ledger(3, arcs.as_mut_slice())?;
    check_cases(&mut ledger, &[gives(admit(0, 1, 5), Ok(()))])?;
    let mut top = Frozen::over(ledger);
    check_cases(&mut top, &sealed())?;
    check_cases(&mut top, &without_holds())
}

#[test]
fn holds_and_lifts(rt: HostRuntime) -> Result<(), Fail> {
    let mut arcs = blank::<Minutes>(rt.alloc(), 1)?;
    let ledger = empty_ledger(40, arcs.as_mut_slice())?;
    let mut top = Holding::over(ledger);
    check_cases(&mut top, &[gives(Call::Lift(0), Err(Refusal::NotHeld))])?;
    hold_all(&mut top, 32)?;
    check_cases(&mut top, &with_32_held())
}

// The numbers by which the rules know the refusals.
#[test]
fn numbers(rt: HostRuntime) {
    let numbers = [
        (Refusal::BadCount, 1),
        (Refusal::BadSize, 2),
        (Refusal::BadRun, 3),
        (Refusal::LabelNone, 4),
        (Refusal::Sealed, 5),
        (Refusal::NoPackage, 6),
        (Refusal::EqualEnds, 7),
        (Refusal::Full, 8),
        (Refusal::NoSuchArc, 9),
        (Refusal::AlreadyHeld, 10),
        (Refusal::NoHolds, 11),
        (Refusal::NotHeld, 12),
        (Refusal::ShortBuffer, 13),
        (Refusal::Loop, 14),
        (Refusal::Held, 15),
        (Refusal::NotCommand, 16),
    ];
    for (refusal, number) in numbers {
        assert_eq!(rt; u32::from(refusal), number);
    }
}
