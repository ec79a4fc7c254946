// A catalogue by the rules alone: plain lists, everything counted anew at each question. What its
// calls answer has no contract: it is what the proved code is compared with.
ghost use Rattle.std.specs.Prelude.{◌≡◌, true, false, [], length, map, nat_lt};
ghost use Rattle.catalogue.specs.Calls.{arc_at};
ghost use Rattle.paths.specs.Arcs.{turn};
ghost use Rattle.cases.specs.References.{meant, SameLimits, Kept};

use catalogue::{Call, Refusal};
use paths::Arc;
use std::alloc::{AllocError, Global};

#[derive(Drop)]
pub struct Reference<L> {
    n: u32,
    // the label none
    none: L,
    capacity: usize,
    most_held: usize,
    sealed: bool,
    stock: Vec<Arc<L>>,
    held: Vec<u32>,
}

impl<L: Copy + PartialEq> Reference<L> {
    pub fn new(heap: Global, n: u32, none: L, capacity: usize, most_held: usize) -> Reference<L>
        ensures limits { (result.n ≡ n) × (result.none ≡ none) × (result.capacity ≡ capacity) × (result.most_held ≡ most_held) }
        ensures empty { (result.sealed ≡ false) × (result.stock.items ≡ []) × (result.held.items ≡ []) }
    {
        Reference {
            n,
            none,
            capacity,
            most_held,
            sealed: false,
            stock: Vec::new(heap),
            held: Vec::new(heap),
        }
    }

    // A layer that seals is laid.
    pub fn seal(&mut self)
        ensures sealed { self.new.sealed ≡ true }
        ensures lists { (self.new.stock.items ≡ self.old.stock.items) × (self.new.held.items ≡ self.old.held.items) }
        ensures limits { SameLimits self.old self.new }
    {
        self.sealed = true;
    }

    // A layer that exchanges the ends of every arc is laid.
    pub fn turn(&mut self)
        ensures stock { self.new.stock.items ≡ map turn self.old.stock.items }
        ensures held { self.new.held.items ≡ self.old.held.items }
        ensures sealed { self.new.sealed ≡ self.old.sealed }
        ensures limits { SameLimits self.old self.new }
    {
        for arc in self.stock.iter_mut() {
            *arc = turned(*arc);
        }
    }

    pub fn n(&self) -> u32
        ensures { result ≡ (meant self.now).n }
    {
        self.n
    }

    pub fn stock_len(&self) -> usize
        ensures { result ≡ length (meant self.now).stock }
    {
        self.stock.len()
    }

    pub fn places_left(&self) -> usize
        ensures { result ≡ (meant self.now).places }
    {
        self.capacity.saturating_sub(self.stock.len())
    }

    pub fn sealed(&self) -> bool
        ensures { result ≡ (meant self.now).sealed }
    {
        self.sealed
    }

    pub fn is_held(&self, p: u32) -> bool
        ensures { result ≡ (meant self.now).held p }
    {
        self.held.contains(&p)
    }

    pub fn can_hold(&self) -> bool
        ensures { result ≡ nat_lt 0 (meant self.now).holds }
    {
        self.held.len() < self.most_held
    }

    pub fn arc_at(&self, k: usize) -> Option<Arc<L>>
        ensures { result ≡ arc_at (meant self.now) k }
    {
        self.stock
            .get(k)
            .copied()
            .filter(|arc| !(self.is_held(arc.from) || self.is_held(arc.to)))
    }

    // Makes each call in turn, whatever it answers.
    pub fn run(&mut self, calls: &[Call<L>]) -> Result<(), AllocError>
        ensures { Kept self.old self.new }
    {
        for call in calls {
            let _ = self.call(*call)?;
        }
        Ok(())
    }

    // How many arcs the call took out, or why it was refused; apart from that, memory can run out.
    pub(crate) fn call(&mut self, call: Call<L>) -> Result<Result<usize, Refusal>, AllocError>
        ensures { Kept self.old self.new }
    {
        match call {
            Call::Admit(from, to, label) => self.admit(Arc { from, to, label }),
            Call::Withdraw(from, to) => Ok(self.withdraw(from, to)),
            Call::Hold(p) => self.hold(p),
            Call::Lift(p) => Ok(self.lift(p)),
        }
    }

    fn admit(&mut self, arc: Arc<L>) -> Result<Result<usize, Refusal>, AllocError>
        ensures { Kept self.old self.new }
    {
        if self.sealed {
            return Ok(Err(Refusal::Sealed));
        }
        if arc.from >= self.n || arc.to >= self.n {
            return Ok(Err(Refusal::NoPackage));
        }
        if arc.from == arc.to {
            return Ok(Err(Refusal::EqualEnds));
        }
        if arc.label == self.none {
            return Ok(Err(Refusal::LabelNone));
        }
        if self.places_left() == 0 {
            return Ok(Err(Refusal::Full));
        }
        self.stock.push(arc)?;
        Ok(Ok(0))
    }

    fn withdraw(&mut self, from: u32, to: u32) -> Result<usize, Refusal>
        ensures { Kept self.old self.new }
    {
        if self.sealed {
            return Err(Refusal::Sealed);
        }
        if from >= self.n || to >= self.n {
            return Err(Refusal::NoPackage);
        }
        let before = self.stock.len();
        self.stock.retain(|arc| arc.from != from || arc.to != to);
        let taken = before - self.stock.len();
        if taken == 0 {
            return Err(Refusal::NoSuchArc);
        }
        Ok(taken)
    }

    fn hold(&mut self, p: u32) -> Result<Result<usize, Refusal>, AllocError>
        ensures { Kept self.old self.new }
    {
        if p >= self.n {
            return Ok(Err(Refusal::NoPackage));
        }
        if self.is_held(p) {
            return Ok(Err(Refusal::AlreadyHeld));
        }
        if !self.can_hold() {
            return Ok(Err(Refusal::NoHolds));
        }
        self.held.push(p)?;
        Ok(Ok(0))
    }

    fn lift(&mut self, p: u32) -> Result<usize, Refusal>
        ensures { Kept self.old self.new }
    {
        if p >= self.n {
            return Err(Refusal::NoPackage);
        }
        if !self.is_held(p) {
            return Err(Refusal::NotHeld);
        }
        self.held.retain(|q| *q != p);
        Ok(0)
    }
}

// An arc with its ends exchanged; not by the method of `Arc`, which is what it is compared with.
fn turned<L: Copy>(arc: Arc<L>) -> Arc<L>
    ensures { result ≡ turn arc }
{
    Arc {
        from: arc.to,
        to: arc.from,
        label: arc.label,
    }
}
