// A catalogue over an array of arc records that the caller hands in.
ghost use Rattle.std.specs.Prelude.{◌≡◌, ℕ, ◌+◌, ◌-◌, ◌<◌, ◌≤◌, List, length, take, filter, slice_set};
ghost use Rattle.paths.specs.declared.arc.Arc.{Arc};
ghost use Rattle.paths.specs.Arcs.{between, elsewhere};
ghost use Rattle.catalogue.specs.Refusals.{answer};
ghost use Rattle.catalogue.specs.Calls.{admit_answer};
ghost use Rattle.catalogue.specs.Ledgers.{ledger, LedgerOk};
ghost use Rattle.std.proofs.Props.{props};
ghost use Rattle.catalogue.specs.Makings.{ledger_of, first_meaning};

use crate::interface::{Catalogue, Make};
use crate::limits::{MOST_ARCS, check_package, count_fits, outside};
use crate::refusal::Refusal;
use labels::Label;
use paths::Arc;

// The first `len` records are the stock; the others are free. The records are lent, so that want of
// memory refuses no arc.
#[derive(Drop)]
pub struct Ledger<'a, K: Label> {
    n: u32,
    len: usize,
    arcs: &'a mut [Arc<K>],
    ghost ok: { LedgerOk K.Label.ops n len arcs.now } by { Prim.hlevel props },
}

// What a ledger is made from.
#[derive(Drop)]
pub struct Blank<'a, K: Label> {
    pub n: u32,
    pub arcs: &'a mut [Arc<K>],
}

impl<'a, K: Label> Make<Blank<'a, K>> for Ledger<'a, K> {
    ghost first = { λ s. first_meaning K.Label.ops K.Label.named (ledger_of s.n (length s.arcs.now)) };

    fn make(source: Blank<'a, K>) -> Result<Ledger<'a, K>, Refusal> {
        let Blank { n, arcs } = source;
        if !count_fits(n) {
            return Err(Refusal::BadCount);
        }
        let places = arcs.len().min(MOST_ARCS);
        let arcs = &mut arcs[0..places];
        Ok(Ledger { n, len: 0, arcs })
    }
}

impl<'a, K: Label> Catalogue for Ledger<'a, K> {
    type Label = K;

    ghost meaning = { λ s. ledger s.n s.len s.arcs.now };

    ghost sound = { λ s. s.ok.sound };

    fn n(&self) -> u32 {
        self.n
    }

    fn stock_len(&self) -> usize {
        self.len
    }

    fn places_left(&self) -> usize {
        self.arcs.len() - self.len
    }

    fn sealed(&self) -> bool {
        false
    }

    fn is_held(&self, _p: u32) -> bool {
        false
    }

    fn can_hold(&self) -> bool {
        false
    }

    fn arc_at(&self, k: usize) -> Option<Arc<K>> {
        self.arcs[..self.len].get(k).copied()
    }

    fn admit(&mut self, from: u32, to: u32, label: K) -> Result<(), Refusal> {
        check_admit(self.n, self.places_left(), from, to, label)?;
        let len = self.len;
        self.len = append(self.arcs, len, Arc { from, to, label });
        Ok(())
    }

    fn withdraw(&mut self, from: u32, to: u32) -> Result<usize, Refusal> {
        if outside(self.n, from) || outside(self.n, to) {
            return Err(Refusal::NoPackage);
        }
        let len = self.len;
        let taken = drop_between(self.arcs, len, from, to);
        if taken == 0 {
            return Err(Refusal::NoSuchArc);
        }
        self.len -= taken;
        Ok(taken)
    }

    fn hold(&mut self, p: u32) -> Result<(), Refusal> {
        check_package(self.n, p)?;
        Err(Refusal::NoHolds)
    }

    fn lift(&mut self, p: u32) -> Result<(), Refusal> {
        check_package(self.n, p)?;
        Err(Refusal::NotHeld)
    }
}

// The checks of `admit`, in their order. Over the ledger's parts, so that a wrong one is refused
// here: a method needs answers.
fn check_admit<K: Label>(n: u32, places: usize, from: u32, to: u32, label: K) -> Result<(), Refusal>
    ensures { (len : ℕ) (arcs : List (Arc K)) → length arcs - len ≡ places → answer result ≡ admit_answer K.Label.ops (ledger n len arcs) from to label }
{
    if outside(n, from) || outside(n, to) {
        return Err(Refusal::NoPackage);
    }
    if from == to {
        return Err(Refusal::EqualEnds);
    }
    if label.same(K::NONE) {
        return Err(Refusal::LabelNone);
    }
    if places == 0 {
        return Err(Refusal::Full);
    }
    Ok(())
}

// Puts an arc after the first `len`, and answers how many there are then. Over the records alone,
// as `drop_between`: a method would owe the ledger's own facts at its end.
fn append<K: Label>(arcs: &mut [Arc<K>], len: usize, arc: Arc<K>) -> usize
    requires { len < length arcs.old }
    ensures count { result ≡ len + 1 }
    ensures records { arcs.new ≡ slice_set arcs.old len arc }
{
    arcs[len] = arc;
    len + 1
}

// Has the arc other ends than these?
fn lies_elsewhere<K: Label>(arc: Arc<K>, from: u32, to: u32) -> bool
    ensures { result ≡ elsewhere from to arc }
{
    !arc.joins(from, to)
}

// Moves the arcs with other ends to the front, and answers how many of the first `len` have these.
fn drop_between<K: Label>(arcs: &mut [Arc<K>], len: usize, from: u32, to: u32) -> usize
    requires { len ≤ length arcs.old }
    ensures few { result ≤ len }
    ensures front { take (len - result) arcs.new ≡ filter (elsewhere from to) (take len arcs.old) }
    ensures count { result ≡ length (filter (between from to) (take len arcs.old)) }
{
    // by index, since a lent slice has no `retain`
    let mut next = 0;
    for i in 0..len {
        let arc = arcs[i];
        if lies_elsewhere(arc, from, to) {
            arcs[next] = arc;
            next += 1;
        }
    }
    len - next
}
