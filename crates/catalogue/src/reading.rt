// The parts of the reading of a sheet.
ghost use Rattle.std.specs.Prelude.{◌≡◌, ◌+◌, ◌-◌, ◌*◌, ◌/◌, ◌<◌, ◌≤◌, ℕ, List, map, length, slice_index_or, IfOk, nat_le};
ghost use Rattle.sheets.specs.Sheets.{word_at, count_of, offset_of, size_of, due as due_at, entry, run_at, entries, first_unmet, run_test, end_test, pair_checks, entry_check, sheet_check};
ghost use Rattle.catalogue.specs.SheetMeanings.{Units, verdict, labelled};

use crate::limits::{MOST_ARCS, count_fits};
use crate::refusal::Refusal;
use labels::Label;
use paths::Arc;

// The 32-bit field of these bytes, lowest byte first.
#[tactic(auto, unfolding(sheets::specs::Sheets::word_at))]
fn word(bytes: [u8; 4]) -> u32
    ensures { result ≡ word_at bytes 0 }
{
    u32::from_le_bytes(bytes)
}

// The two fields of a pair or of an arc.
#[tactic(auto, unfolding(sheets::specs::Sheets::word_at))]
fn fields(unit: &[u8; 8]) -> (u32, u32)
    ensures first { result.0 ≡ word_at unit.now 0 }
    ensures second { result.1 ≡ word_at unit.now 4 }
{
    let [a, b, c, d, e, f, g, h] = *unit;
    (word([a, b, c, d]), word([e, f, g, h]))
}

// Where the pairs end.
fn pairs_end(n: u32) -> usize
    ensures { result ≡ 4 + 8 * n }
{
    4 + 8 * n as usize
}

// Does the run stand where it is due, with whole arcs, inside the sheet?
fn run_fits(offset: u32, size: u32, due: usize, len: usize) -> bool
    ensures { result ≡ run_test offset size due len }
{
    offset as usize == due && (size % 8 == 0 && offset as usize + size as usize <= len)
}

// Do the runs end with the sheet, with no more arcs than a stock may have?
fn ends_well(end: usize, len: usize, arcs: usize) -> bool
    ensures { result ≡ end_test end len arcs }
{
    end == len && arcs <= MOST_ARCS
}

// Does the run of a pair begin at or before a byte?
fn begins_by(pair: &[u8; 8], at: usize) -> bool
    ensures { result ≡ nat_le (word_at pair.now 0) at }
{
    fields(pair).0 as usize <= at
}

// Checks one arc.
fn check_arc<K: Label>(n: u32, from: u32, to: u32, word: u32) -> Result<(), Refusal>
    requires { from < n }
    ensures { verdict result ≡ entry_check K.Label.named n (entry from to word) }
{
    if to >= n {
        return Err(Refusal::NoPackage);
    }
    if from == to {
        return Err(Refusal::EqualEnds);
    }
    if K::from_word(word).is_none() {
        return Err(Refusal::LabelNone);
    }
    Ok(())
}

// Checks the arcs of package `p`, which these bytes state.
fn check_run<K: Label>(n: u32, p: u32, run: &[u8]) -> Result<(), Refusal>
    requires { p < n }
    ensures { verdict result ≡ first_unmet (map (entry_check K.Label.named n) (run_at run.now p 0 (length run.now / 8))) }
{
    let (arcs, _) = run.as_chunks::<8>();
    for arc in arcs {
        let (to, label) = fields(arc);
        check_arc::<K>(n, p, to, label)?;
    }
    Ok(())
}

// The arc of package `from` that these bytes state.
pub(crate) fn arc_in<K: Label>(from: u32, arc: &[u8; 8]) -> Option<Arc<K>>
    ensures { result ≡ labelled from (word_at arc.now 0) (K.Label.named (word_at arc.now 4)) }
{
    let (to, word) = fields(arc);
    K::from_word(word).map(|label| Arc { from, to, label })
}

// The bytes of a sheet, long enough for its pairs.
#[derive(Clone, Copy)]
pub(crate) struct Reading<'a> {
    bytes: &'a [u8],
    pub(crate) n: u32,
    ghost count: { n ≡ count_of bytes.now },
    ghost some: { 1 ≤ n },
    ghost most: { n ≤ 1024 },
    ghost long: { 4 + 8 * n ≤ length bytes.now },
}

impl<'a> Reading<'a> {
    // What follows the first field: the pairs, and then the arcs.
    fn units(&self) -> &'a [[u8; 8]]
        ensures len { length result.now ≡ (length self.now.bytes.now - 4) / 8 }
        ensures fields { Units self.now.bytes.now 4 result.now }
    {
        let (units, _) = self.bytes[4..].as_chunks::<8>();
        units
    }

    // The pairs of offset and length.
    fn pairs(&self) -> &'a [[u8; 8]]
        ensures len { length result.now ≡ self.now.n }
        ensures fields { Units self.now.bytes.now 4 result.now }
    {
        &self.units()[..self.n as usize]
    }

    // Those of all packages but the first.
    fn later_pairs(&self) -> &'a [[u8; 8]]
        ensures len { length result.now ≡ self.now.n - 1 }
        ensures fields { Units self.now.bytes.now 12 result.now }
    {
        &self.units()[1..self.n as usize]
    }

    // The arcs of all runs.
    pub(crate) fn arcs(&self) -> &'a [[u8; 8]]
        ensures len { length result.now ≡ (length self.now.bytes.now - (4 + 8 * self.now.n)) / 8 }
        ensures fields { Units self.now.bytes.now (4 + 8 * self.now.n) result.now }
    {
        &self.units()[self.n as usize..]
    }

    // Where the arc at a place of the stock stands.
    pub(crate) fn place_of(&self, k: usize) -> usize
        requires { k ≤ 65536 }
        ensures { result ≡ 4 + 8 * self.now.n + 8 * k }
    {
        pairs_end(self.n) + 8 * k
    }

    // Checks the pairs; answers where the last run ends.
    fn check_pairs(&self) -> Result<usize, Refusal>
        ensures checks { verdict result ≡ first_unmet (pair_checks self.now.bytes.now) }
        ensures ends { IfOk result (λ e. e ≡ due_at self.now.bytes.now self.now.n) }
    {
        let mut at = pairs_end(self.n);
        for pair in self.pairs() {
            let (offset, size) = fields(pair);
            if !run_fits(offset, size, at, self.bytes.len()) {
                return Err(Refusal::BadRun);
            }
            at += size as usize;
        }
        Ok(at)
    }

    // Checks the arcs of all runs.
    fn check_runs<K: Label>(&self) -> Result<(), Refusal>
        requires { first_unmet (pair_checks self.now.bytes.now) ≡ 0 }
        ensures { verdict result ≡ first_unmet (map (entry_check K.Label.named self.now.n) (entries self.now.bytes.now)) }
    {
        for (p, pair) in self.pairs().iter().enumerate() {
            let (offset, size) = fields(pair);
            let run = &self.bytes[offset as usize..offset as usize + size as usize];
            check_run::<K>(self.n, p as u32, run)?;
        }
        Ok(())
    }

    // The last package whose run begins at or before a byte, as the first package's does.
    pub(crate) fn source(&self, at: usize) -> u32
        requires met { first_unmet (pair_checks self.now.bytes.now) ≡ 0 }
        requires begun { offset_of self.now.bytes.now 0 ≤ at }
        ensures inside { result < self.now.n }
        ensures begun { offset_of self.now.bytes.now result ≤ at }
        ensures last { result + 1 < self.now.n → at < offset_of self.now.bytes.now (result + 1) }
    {
        let begun = self
            .later_pairs()
            .partition_point(|pair| begins_by(pair, at));
        begun as u32
    }
}

// Checks a sheet.
pub(crate) fn check_sheet<K: Label>(bytes: &[u8]) -> Result<Reading<'_>, Refusal>
    ensures checks { verdict result ≡ sheet_check K.Label.named bytes.now }
    ensures same { IfOk result (λ reading. reading.bytes.now ≡ bytes.now) }
{
    let Some(first) = bytes.first_chunk::<4>() else {
        return Err(Refusal::BadSize);
    };
    let n = word(*first);
    if !count_fits(n) {
        return Err(Refusal::BadCount);
    }
    let start = pairs_end(n);
    if bytes.len() < start {
        return Err(Refusal::BadSize);
    }
    let reading = Reading { bytes, n };
    let end = reading.check_pairs()?;
    if !ends_well(end, bytes.len(), (end - start) / 8) {
        return Err(Refusal::BadSize);
    }
    reading.check_runs::<K>()?;
    Ok(reading)
}
