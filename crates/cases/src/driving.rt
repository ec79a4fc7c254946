// Drives a catalogue and the reference by the same calls, and compares them after each.
use crate::checks::{check, check_eq};
use crate::counts::count;
use crate::reference::Reference;
use crate::rolls::Rolls;
use catalogue::{Call, Catalogue, Refusal};
use labels::Minutes;
use std::test::Fail;

// What a run has come by.
#[derive(Clone, Copy, Default)]
pub struct Seen {
    pub accepted: usize,
    pub refused: usize,
    // withdrawals of more than one arc
    pub several: usize,
    // calls refused for want of places, and of holds
    pub full: usize,
    pub no_holds: usize,
    // held packages, arcs that a hold hides and arcs in force, summed over the calls
    pub held: usize,
    pub hidden: usize,
    pub in_force: usize,
}

impl Seen {
    fn note_answer(&mut self, answer: Result<usize, Refusal>) {
        count(&mut self.accepted, answer.is_ok());
        count(&mut self.refused, answer.is_err());
        count(&mut self.several, answer.is_ok_and(|taken| taken > 1));
        count(&mut self.full, answer == Err(Refusal::Full));
        count(&mut self.no_holds, answer == Err(Refusal::NoHolds));
    }

    fn note_holds<C: Catalogue>(&mut self, c: &C) {
        let held = (0..c.n()).filter(|p| c.is_held(*p)).count();
        let places = c.stock_len();
        let in_force = (0..places).filter(|k| c.arc_at(*k).is_some()).count();
        self.held = self.held.saturating_add(held);
        self.in_force = self.in_force.saturating_add(in_force);
        self.hidden = self.hidden.saturating_add(places.saturating_sub(in_force));
    }
}

// Makes `calls` calls.
pub fn drive<C: Catalogue<Label = Minutes>>(
    c: &mut C,
    reference: &mut Reference<Minutes>,
    calls: u32,
) -> Result<Seen, Fail> {
    let mut rolls = Rolls::new(20);
    let mut seen = Seen::default();
    compare(c, reference)?;
    for _ in 0..calls {
        let call = rolls.call(reference.n());
        let answer = make_call(c, call);
        check_eq(answer, reference.call(call)?)?;
        compare(c, reference)?;
        seen.note_answer(answer);
        seen.note_holds(c);
    }
    Ok(seen)
}

// As the catalogues' own, but it answers how many arcs were taken out.
fn make_call<C: Catalogue>(c: &mut C, call: Call<C::Label>) -> Result<usize, Refusal> {
    match call {
        Call::Admit(from, to, label) => c.admit(from, to, label).map(|()| 0),
        Call::Withdraw(from, to) => c.withdraw(from, to),
        Call::Hold(p) => c.hold(p).map(|()| 0),
        Call::Lift(p) => c.lift(p).map(|()| 0),
    }
}

// Every question, with the packages and places just past the last ones.
fn compare<C: Catalogue<Label = Minutes>>(
    c: &C,
    reference: &Reference<Minutes>,
) -> Result<(), Fail> {
    check_eq(c.n(), reference.n())?;
    check_eq(c.stock_len(), reference.stock_len())?;
    check_eq(c.places_left(), reference.places_left())?;
    check_eq(c.sealed(), reference.sealed())?;
    check_eq(c.can_hold(), reference.can_hold())?;
    let packages = reference.n().saturating_add(2);
    check((0..packages).all(|p| c.is_held(p) == reference.is_held(p)))?;
    let places = reference.stock_len().saturating_add(2);
    check((0..places).all(|k| c.arc_at(k) == reference.arc_at(k)))
}
