// A catalogue with the two ends of every arc exchanged.
ghost use Rattle.std.specs.Prelude.{◌≡◌};
ghost use Rattle.std.specs.Option.{option_map};
ghost use Rattle.paths.specs.Arcs.{turn};
ghost use Rattle.catalogue.specs.Refusals.{answer, on_ok};
ghost use Rattle.catalogue.specs.Calls.{admit_answer, admit_leaves, withdraw_answer, withdraw_leaves};
ghost use Rattle.catalogue.specs.Turns.{turned};
ghost use Rattle.catalogue.specs.Sounds.{turned_sound};

use crate::interface::{Catalogue, Layer, Make};
use crate::refusal::Refusal;
use labels::Label;
use paths::Arc;

// What it does not change is passed down call by call: a trait's forwarding has no shorter form.
#[derive(Drop)]
pub struct Turned<C: Catalogue> {
    below: C,
}

impl<C: Catalogue> Layer<C> for Turned<C> {
    ghost laid = { turned };

    fn over(below: C) -> Turned<C> {
        Turned { below }
    }
}

impl<S, C: Make<S>> Make<S> for Turned<C> {
    ghost first = { λ s. on_ok turned (C.Make.first s) };

    fn make(source: S) -> Result<Turned<C>, Refusal> {
        Ok(Turned::over(C::make(source)?))
    }
}

impl<C: Catalogue> Catalogue for Turned<C> {
    type Label = C::Label;

    ghost meaning = { λ s. turned (C.Catalogue.meaning s.below) };

    ghost sound = { λ s. turned_sound _ _ (C.Catalogue.sound s.below) };

    fn n(&self) -> u32 {
        self.below.n()
    }

    fn stock_len(&self) -> usize {
        self.below.stock_len()
    }

    fn places_left(&self) -> usize {
        self.below.places_left()
    }

    fn sealed(&self) -> bool {
        self.below.sealed()
    }

    fn is_held(&self, p: u32) -> bool {
        self.below.is_held(p)
    }

    fn can_hold(&self) -> bool {
        self.below.can_hold()
    }

    fn arc_at(&self, k: usize) -> Option<Arc<C::Label>> {
        turned_arc(self.below.arc_at(k))
    }

    fn admit(&mut self, from: u32, to: u32, label: C::Label) -> Result<(), Refusal> {
        admit_turned(&mut self.below, from, to, label)
    }

    fn withdraw(&mut self, from: u32, to: u32) -> Result<usize, Refusal> {
        withdraw_turned(&mut self.below, from, to)
    }

    fn hold(&mut self, p: u32) -> Result<(), Refusal> {
        self.below.hold(p)
    }

    fn lift(&mut self, p: u32) -> Result<(), Refusal> {
        self.below.lift(p)
    }
}

fn turned_arc<K: Label>(arc: Option<Arc<K>>) -> Option<Arc<K>>
    ensures { result ≡ option_map turn arc }
{
    arc.map(|arc| arc.turned())
}

// Admits the arc below with its ends exchanged.
fn admit_turned<C: Catalogue>(
    below: &mut C,
    from: u32,
    to: u32,
    label: C::Label,
) -> Result<(), Refusal>
    ensures answers { answer result ≡ admit_answer C.Label.Label.ops (C.Catalogue.meaning below.old) to from label }
    ensures leaves { C.Catalogue.meaning below.new ≡ admit_leaves C.Label.Label.ops (C.Catalogue.meaning below.old) to from label }
{
    below.admit(to, from, label)
}

// Withdraws below with the ends exchanged.
fn withdraw_turned<C: Catalogue>(below: &mut C, from: u32, to: u32) -> Result<usize, Refusal>
    ensures answers { answer result ≡ withdraw_answer (C.Catalogue.meaning below.old) to from }
    ensures leaves { C.Catalogue.meaning below.new ≡ withdraw_leaves (C.Catalogue.meaning below.old) to from }
{
    below.withdraw(to, from)
}
