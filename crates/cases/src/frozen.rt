// A layer that seals what lies below.
ghost use Rattle.std.specs.Prelude.{◌≡◌};
ghost use Rattle.cases.specs.Frozen.{sealed_over, sealed_sound};

use catalogue::{Catalogue, Layer, Refusal};
use paths::Arc;

// What it does not change is passed down call by call, as in Turned.
#[derive(Drop)]
pub struct Frozen<C: Catalogue> {
    below: C,
}

impl<C: Catalogue> Layer<C> for Frozen<C> {
    ghost laid = { sealed_over };

    fn over(below: C) -> Frozen<C> {
        Frozen { below }
    }
}

impl<C: Catalogue> Catalogue for Frozen<C> {
    type Label = C::Label;

    ghost meaning = { λ s. sealed_over (C.Catalogue.meaning s.below) };

    ghost sound = { λ s. sealed_sound _ _ (C.Catalogue.sound s.below) };

    fn n(&self) -> u32 {
        self.below.n()
    }

    fn stock_len(&self) -> usize {
        self.below.stock_len()
    }

    fn places_left(&self) -> usize {
        self.below.places_left()
    }

    fn sealed(&self) -> bool {
        true
    }

    fn is_held(&self, p: u32) -> bool {
        self.below.is_held(p)
    }

    fn can_hold(&self) -> bool {
        self.below.can_hold()
    }

    fn arc_at(&self, k: usize) -> Option<Arc<C::Label>> {
        self.below.arc_at(k)
    }

    fn admit(&mut self, _from: u32, _to: u32, _label: C::Label) -> Result<(), Refusal> {
        Err(Refusal::Sealed)
    }

    fn withdraw(&mut self, _from: u32, _to: u32) -> Result<usize, Refusal> {
        Err(Refusal::Sealed)
    }

    fn hold(&mut self, p: u32) -> Result<(), Refusal> {
        self.below.hold(p)
    }

    fn lift(&mut self, p: u32) -> Result<(), Refusal> {
        self.below.lift(p)
    }
}
