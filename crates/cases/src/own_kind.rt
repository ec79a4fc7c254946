// The tests' own kind and layer, through code that knows neither.
use crate::checks::check_eq;
use crate::frozen::Frozen;
use crate::places::{blank, empty_ledger};
use crate::width::Width;
use catalogue::{Call, Catalogue, Holding, Layer, Refusal, run};
use exercise::{Answers, Arguments, Outcomes, Replies, exercise};
use labels::Label;
use paths::Arc;
use std::test::Fail;

#[test]
fn width_operations(rt: HostRuntime) {
    let narrow = Width { value: 3 };
    let wide = Width { value: 8 };
    assert_eq!(rt; narrow.join(wide), wide);
    assert_eq!(rt; wide.join(narrow), wide);
    assert_eq!(rt; narrow.extend(wide), narrow);
    assert_eq!(rt; wide.extend(narrow), narrow);
    assert!(rt; wide.same(wide));
    assert!(rt; !wide.same(narrow));
}

#[test]
fn width_words(rt: HostRuntime) {
    let none: Width = Width::NONE;
    let whole: Width = Width::WHOLE;
    assert_eq!(rt; none.value, 0);
    assert_eq!(rt; whole.value, 4294967295);
    assert_eq!(rt; Width::from_word(0), None);
    assert_eq!(rt; Width::from_word(1), Some(Width { value: 1 }));
    assert_eq!(rt;
        Width::from_word(4294967295),
        Some(Width { value: 4294967295 })
    );
}

fn arguments() -> Arguments<Width> {
    Arguments {
        from: 2,
        to: 0,
        label: Width { value: 4 },
        package: 1,
        place: 0,
    }
}

fn first_calls() -> [Call<Width>; 5] {
    [
        Call::Admit(0, 1, Width { value: 7 }),
        Call::Admit(1, 2, Width { value: 0 }),
        Call::Admit(1, 2, Width { value: 4294967295 }),
        Call::Withdraw(2, 0),
        Call::Hold(2),
    ]
}

// What the stack of the calls above answers to every question.
fn check_questions(answers: Answers<Width>, sealed: bool) -> Result<(), Fail> {
    let first = Arc {
        from: 0,
        to: 1,
        label: Width { value: 7 },
    };
    let replies = Replies {
        n: 3,
        stock_len: 2,
        places_left: 2,
        sealed,
        is_held: false,
        can_hold: true,
        arc: Some(first),
    };
    check_eq(answers.replies, replies)
}

// `taken` is the answer to the withdrawal; the admission is refused as that is.
fn check_calls(answers: Answers<Width>, taken: Result<usize, Refusal>) -> Result<(), Fail> {
    let outcomes = Outcomes {
        admit: taken.map(|_| ()),
        hold: Ok(()),
        lift: Ok(()),
        withdraw: taken,
    };
    check_eq(answers.outcomes, outcomes)
}

#[test]
fn width_exercised(rt: HostRuntime) -> Result<(), Fail> {
    let mut arcs = blank::<Width>(rt.alloc(), 4)?;
    let ledger = empty_ledger(3, arcs.as_mut_slice())?;
    let mut top = Holding::over(ledger);
    run(&mut top, &first_calls());
    let answers = exercise(&mut top, arguments());
    check_questions(answers, false)?;
    check_calls(answers, Ok(1))?;
    assert!(rt; top.is_held(2));
    assert!(rt; top.arc_at(1).is_none());
    Ok(())
}

#[test]
fn frozen_width_exercised(rt: HostRuntime) -> Result<(), Fail> {
    let mut arcs = blank::<Width>(rt.alloc(), 4)?;
    let ledger = empty_ledger(3, arcs.as_mut_slice())?;
    let mut holding = Holding::over(ledger);
    run(&mut holding, &first_calls());
    let mut top = Frozen::over(holding);
    let answers = exercise(&mut top, arguments());
    check_questions(answers, true)?;
    check_calls(answers, Err(Refusal::Sealed))?;
    run(
        &mut top,
        &[Call::Admit(0, 1, Width { value: 7 }), Call::Lift(2)],
    );
    assert_eq!(rt; top.stock_len(), 2);
    assert!(rt; !top.is_held(2));
    assert!(rt; top.arc_at(1).is_some());
    Ok(())
}
