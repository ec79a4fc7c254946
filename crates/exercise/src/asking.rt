// Over any catalogue.
ghost use Rattle.std.specs.Prelude.{◌≡◌};
ghost use Rattle.catalogue.specs.Runs.{reckon};
ghost use Rattle.exercise.specs.Exercised.{calls, Asked, Called, Exercised};

use crate::answers::{Answers, Arguments, Outcomes, Replies};
use catalogue::Catalogue;

// Asks every question, then makes a call of each sort.
pub fn exercise<C: Catalogue>(catalogue: &mut C, with: Arguments<C::Label>) -> Answers<C::Label>
    ensures answers { Exercised C.Label.Label.ops (C.Catalogue.meaning catalogue.old) with result }
    ensures leaves { C.Catalogue.meaning catalogue.new ≡ reckon C.Label.Label.ops (C.Catalogue.meaning catalogue.old) (calls with) }
{
    let replies = ask(catalogue, with);
    let outcomes = call_each(catalogue, with);
    Answers { replies, outcomes }
}

// Asks every question.
pub fn ask<C: Catalogue>(catalogue: &C, with: Arguments<C::Label>) -> Replies<C::Label>
    ensures { Asked (C.Catalogue.meaning catalogue.now) with result }
{
    Replies {
        n: catalogue.n(),
        stock_len: catalogue.stock_len(),
        places_left: catalogue.places_left(),
        sealed: catalogue.sealed(),
        is_held: catalogue.is_held(with.package),
        can_hold: catalogue.can_hold(),
        arc: catalogue.arc_at(with.place),
    }
}

// Makes a call of each sort.
pub fn call_each<C: Catalogue>(catalogue: &mut C, with: Arguments<C::Label>) -> Outcomes
    ensures answers { Called C.Label.Label.ops (C.Catalogue.meaning catalogue.old) with result }
    ensures leaves { C.Catalogue.meaning catalogue.new ≡ reckon C.Label.Label.ops (C.Catalogue.meaning catalogue.old) (calls with) }
{
    Outcomes {
        admit: catalogue.admit(with.from, with.to, with.label),
        hold: catalogue.hold(with.package),
        lift: catalogue.lift(with.package),
        withdraw: catalogue.withdraw(with.from, with.to),
    }
}
