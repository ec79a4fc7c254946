// A layer with holds of its own.
ghost use Rattle.std.specs.Prelude.{◌≡◌, ◌-◌, ◌&&◌, [], ◌∷◌, ◌++◌, length, is_ok, if◌then◌else◌, Ok, Err, nat_lt};
ghost use Rattle.catalogue.specs.Refusals.{answer, on_ok};
ghost use Rattle.catalogue.specs.Calls.{outside, hold_answer, hold_leaves};
ghost use Rattle.catalogue.specs.Holds.{packages, OwnOk, held_over};
ghost use Rattle.catalogue.specs.Sounds.{held_sound};

use crate::holds::HeldList;
use crate::interface::{Catalogue, Layer, Make};
use crate::limits::check_package;
use crate::refusal::Refusal;
use paths::Arc;

// What it does not change is passed down call by call, as in Turned.
#[derive(Drop)]
pub struct Holding<C: Catalogue> {
    below: C,
    own: HeldList,
    ghost list: { OwnOk (C.Catalogue.meaning below).held (C.Catalogue.meaning below).n (packages own) },
}

impl<C: Catalogue> Layer<C> for Holding<C> {
    ghost laid = { held_over [] };

    fn over(below: C) -> Holding<C> {
        let own = HeldList::new();
        Holding { below, own }
    }
}

impl<S, C: Make<S>> Make<S> for Holding<C> {
    ghost first = { λ s. on_ok (held_over []) (C.Make.first s) };

    fn make(source: S) -> Result<Holding<C>, Refusal> {
        Ok(Holding::over(C::make(source)?))
    }
}

impl<C: Catalogue> Catalogue for Holding<C> {
    type Label = C::Label;

    ghost meaning = { λ s. held_over (packages s.own) (C.Catalogue.meaning s.below) };

    ghost sound = { λ s. held_sound _ _ _ (C.Catalogue.sound s.below) s.list };

    fn n(&self) -> u32 {
        self.below.n()
    }

    fn stock_len(&self) -> usize {
        self.below.stock_len()
    }

    fn places_left(&self) -> usize {
        self.below.places_left()
    }

    fn sealed(&self) -> bool {
        self.below.sealed()
    }

    fn is_held(&self, p: u32) -> bool {
        self.own.has(p) || self.below.is_held(p)
    }

    fn can_hold(&self) -> bool {
        self.own.has_room() || self.below.can_hold()
    }

    fn arc_at(&self, k: usize) -> Option<Arc<C::Label>> {
        self.below
            .arc_at(k)
            .filter(|arc| !(self.own.has(arc.from) || self.own.has(arc.to)))
    }

    fn admit(&mut self, from: u32, to: u32, label: C::Label) -> Result<(), Refusal> {
        self.below.admit(from, to, label)
    }

    fn withdraw(&mut self, from: u32, to: u32) -> Result<usize, Refusal> {
        self.below.withdraw(from, to)
    }

    // Uses the list while it has room, then passes down.
    fn hold(&mut self, p: u32) -> Result<(), Refusal>
        ensures answers { answer result ≡ hold_answer (held_over (packages self.old.own) (C.Catalogue.meaning self.old.below)) p }
        ensures leaves { held_over (packages self.new.own) (C.Catalogue.meaning self.new.below) ≡ hold_leaves (held_over (packages self.old.own) (C.Catalogue.meaning self.old.below)) p }
        ensures fills { packages self.new.own ≡ (if is_ok result && nat_lt 0 (32 - length (packages self.old.own)) then packages self.old.own ++ (p ∷ []) else packages self.old.own) }
    {
        self.check_hold(p)?;
        if self.own.has_room() {
            self.own.add(p);
            return Ok(());
        }
        self.below.hold(p)
    }

    fn lift(&mut self, p: u32) -> Result<(), Refusal> {
        if self.own.remove(p) {
            return Ok(());
        }
        self.below.lift(p)
    }
}

impl<C: Catalogue> Holding<C> {
    // The checks of `hold`, but for the holds left.
    fn check_hold(&self, p: u32) -> Result<(), Refusal>
        ensures { answer result ≡ (if outside (C.Catalogue.meaning self.now.below) p then Err 6 else (if (held_over (packages self.now.own) (C.Catalogue.meaning self.now.below)).held p then Err 10 else Ok tt)) }
    {
        check_package(self.n(), p)?;
        if self.is_held(p) {
            return Err(Refusal::AlreadyHeld);
        }
        Ok(())
    }
}
