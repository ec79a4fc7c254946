// Runs of calls, and what they leave.
ghost use Rattle.std.specs.Prelude.{◌≡◌};
ghost use Rattle.catalogue.specs.Refusals.{answer};
ghost use Rattle.catalogue.specs.Runs.{call_answer, step, reckon};

use crate::call::Call;
use crate::interface::Catalogue;
use crate::refusal::Refusal;

// Makes each call in turn, whatever it answers.
pub fn run<C: Catalogue>(catalogue: &mut C, calls: &[Call<C::Label>])
    ensures reckoned { C.Catalogue.meaning catalogue.new ≡ reckon C.Label.Label.ops (C.Catalogue.meaning catalogue.old) calls.now }
{
    for call in calls {
        let _ = make_call(catalogue, *call);
    }
}

// Makes one call, and answers whether it was taken.
pub fn make_call<C: Catalogue>(catalogue: &mut C, call: Call<C::Label>) -> Result<(), Refusal>
    ensures answers { answer result ≡ call_answer C.Label.Label.ops (C.Catalogue.meaning catalogue.old) call }
    ensures reckoned { C.Catalogue.meaning catalogue.new ≡ step C.Label.Label.ops (C.Catalogue.meaning catalogue.old) call }
{
    match call {
        Call::Admit(from, to, label) => catalogue.admit(from, to, label),
        Call::Withdraw(from, to) => catalogue.withdraw(from, to).map(|_| ()),
        Call::Hold(p) => catalogue.hold(p),
        Call::Lift(p) => catalogue.lift(p),
    }
}
