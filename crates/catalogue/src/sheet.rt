// A catalogue read from bytes.
ghost use Rattle.std.specs.Prelude.{◌≡◌, ◌+◌, ◌-◌, ◌*◌, ◌/◌, length};
ghost use Rattle.catalogue.specs.Refusals.{meant};
ghost use Rattle.catalogue.specs.SheetMeanings.{sheet, SheetOk, Exactly};
ghost use Rattle.catalogue.specs.Sounds.{sheet_sound};
ghost use Rattle.catalogue.specs.Makings.{sheet_of, first_meaning};

use crate::interface::{Catalogue, Make};
use crate::limits::check_package;
use crate::reading::{Reading, arc_in, check_sheet};
use crate::refusal::Refusal;
use labels::Label;
use paths::Arc;
use std::marker::PhantomData;

// Sealed, with nothing held, no places and no holds.
#[derive(Drop)]
pub struct Sheet<'a, K: Label> {
    reading: Reading<'a>,
    kind: PhantomData<K>,
    ghost ok: { SheetOk K.Label.named reading.n ((length reading.bytes.now - (4 + 8 * reading.n)) / 8) reading.bytes.now },
}

impl<'a, K: Label> Catalogue for Sheet<'a, K> {
    type Label = K;

    ghost meaning = { λ s. sheet K.Label.named K.Label.ops.none s.reading.bytes.now };

    ghost sound = { λ s. sheet_sound K.Label.ops K.Label.named K.Label.unnamed s.reading.bytes.now s.ok.met };

    fn n(&self) -> u32 {
        self.reading.n
    }

    fn stock_len(&self) -> usize {
        self.reading.arcs().len()
    }

    fn places_left(&self) -> usize {
        0
    }

    fn sealed(&self) -> bool {
        true
    }

    fn is_held(&self, _p: u32) -> bool {
        false
    }

    fn can_hold(&self) -> bool {
        false
    }

    fn arc_at(&self, k: usize) -> Option<Arc<K>> {
        let arc = self.reading.arcs().get(k)?;
        let from = self.reading.source(self.reading.place_of(k));
        arc_in(from, arc)
    }

    fn admit(&mut self, _from: u32, _to: u32, _label: K) -> Result<(), Refusal> {
        Err(Refusal::Sealed)
    }

    fn withdraw(&mut self, _from: u32, _to: u32) -> Result<usize, Refusal> {
        Err(Refusal::Sealed)
    }

    fn hold(&mut self, p: u32) -> Result<(), Refusal> {
        check_package(self.reading.n, p)?;
        Err(Refusal::NoHolds)
    }

    fn lift(&mut self, p: u32) -> Result<(), Refusal> {
        check_package(self.reading.n, p)?;
        Err(Refusal::NotHeld)
    }
}

impl<'a, K: Label> Make<&'a [u8]> for Sheet<'a, K> {
    ghost first = { λ bytes. first_meaning K.Label.ops K.Label.named (sheet_of bytes.now) };

    fn make(bytes: &'a [u8]) -> Result<Sheet<'a, K>, Refusal>
        ensures answers { meant (λ s. sheet K.Label.named K.Label.ops.none s.reading.bytes.now) result ≡ first_meaning K.Label.ops K.Label.named (sheet_of bytes.now) }
        ensures exact { Exactly K.Label.named K.Label.ops.none bytes.now (meant (λ s. sheet K.Label.named K.Label.ops.none s.reading.bytes.now) result) }
    {
        let reading = check_sheet::<K>(bytes)?;
        Ok(Sheet {
            reading,
            kind: PhantomData,
        })
    }
}
