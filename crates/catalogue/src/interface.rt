// What every catalogue answers and does, and how it is made.
ghost use Rattle.std.specs.Prelude.{◌≡◌, ℕ, length, Result, nat_lt};
ghost use Rattle.catalogue.specs.Refusals.{answer, meant};
ghost use Rattle.catalogue.specs.Meanings.{Meaning, Sound};
ghost use Rattle.catalogue.specs.Calls.{arc_at, admit_answer, admit_leaves, withdraw_answer, withdraw_leaves, hold_answer, hold_leaves, lift_answer, lift_leaves};

use crate::refusal::Refusal;
use labels::Label;
use paths::Arc;

pub trait Catalogue {
    type Label: Label;

    // What the value means.
    ghost meaning: { Self → Meaning Self.Label };

    // The number of packages.
    fn n(&self) -> u32
        ensures { result ≡ (meaning self.now).n };

    fn stock_len(&self) -> usize
        ensures { result ≡ length (meaning self.now).stock };

    fn places_left(&self) -> usize
        ensures { result ≡ (meaning self.now).places };

    fn sealed(&self) -> bool
        ensures { result ≡ (meaning self.now).sealed };

    fn is_held(&self, p: u32) -> bool
        ensures { result ≡ (meaning self.now).held p };

    // Are any holds left?
    fn can_hold(&self) -> bool
        ensures { result ≡ nat_lt 0 (meaning self.now).holds };

    // The arc at a place of the stock, if it is in force.
    fn arc_at(&self, k: usize) -> Option<Arc<Self::Label>>
        ensures { result ≡ arc_at (meaning self.now) k };

    // Puts an arc at the stock's end. Its ends and its label come apart: a rule gives the call
    // these three arguments, and others the order of their checks.
    fn admit(&mut self, from: u32, to: u32, label: Self::Label) -> Result<(), Refusal>
        ensures answers { answer result ≡ admit_answer Self.Label.Label.ops (meaning self.old) from to label }
        ensures leaves { meaning self.new ≡ admit_leaves Self.Label.Label.ops (meaning self.old) from to label };

    // Takes out all stock arcs with these ends, and answers how many.
    fn withdraw(&mut self, from: u32, to: u32) -> Result<usize, Refusal>
        ensures answers { answer result ≡ withdraw_answer (meaning self.old) from to }
        ensures leaves { meaning self.new ≡ withdraw_leaves (meaning self.old) from to };

    fn hold(&mut self, p: u32) -> Result<(), Refusal>
        ensures answers { answer result ≡ hold_answer (meaning self.old) p }
        ensures leaves { meaning self.new ≡ hold_leaves (meaning self.old) p };

    fn lift(&mut self, p: u32) -> Result<(), Refusal>
        ensures answers { answer result ≡ lift_answer (meaning self.old) p }
        ensures leaves { meaning self.new ≡ lift_leaves (meaning self.old) p };

    // What is true of every meaning.
    ghost sound: { (c : Self) → Sound Self.Label.Label.ops (meaning c) };
}

// A catalogue made from what the caller hands in: a bottom, or a stack over one.
pub trait Make<S>: Catalogue + Sized {
    // What is made of it means at first, or the refusal's number.
    ghost first: { S → Result (Meaning Self.Label) ℕ };

    fn make(source: S) -> Result<Self, Refusal>
        ensures { meant Self.Catalogue.meaning result ≡ first source };
}

// A layer: a catalogue made over another, which it owns.
pub trait Layer<C: Catalogue>: Catalogue<Label = C::Label> + Sized {
    // What it means at first over what lies below.
    ghost laid: { Meaning C.Label → Meaning C.Label };

    fn over(below: C) -> Self
        ensures { Self.Catalogue.meaning result ≡ laid (C.Catalogue.meaning below) };
}
