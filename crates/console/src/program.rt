// Lines one after the other, as the program answers them.
ghost use Rattle.std.specs.Prelude.{◌≡◌, Ok, map, length};
ghost use Rattle.labels.specs.declared.kinds.Minutes.{Minutes};
ghost use Rattle.catalogue.specs.Meanings.{Meaning};
ghost use Rattle.catalogue.specs.Refusals.{answer};
ghost use Rattle.console.specs.Sessions.{room};
ghost use Rattle.console.specs.Programs.{after_all, follow_answer, follow_leaves, program_first, program_answer, program_leaves, ReckonsFrom};

use crate::reply::Reply;
use crate::session::obey;
use catalogue::{Blank, Catalogue, Holding, Ledger, Make, Refusal};
use closing::PackageRecord;
use labels::Minutes;
use paths::Arc;

// Makes the program's stack, for n packages, does what each line says, and tells the answers.
#[tactic(auto, using(crate::proofs::Reckoned::reckons))]
pub fn answers(
    n: u32,
    arcs: &mut [Arc<Minutes>],
    lines: &[&[u8]],
    table: &mut [Minutes],
    records: &mut [PackageRecord],
    words: &mut [u32],
    sets: &mut [u8],
    told: &mut [Result<Reply, Refusal>],
) -> Result<(), Refusal>
    ensures answers { answer result ≡ program_answer (program_first n (length arcs.old)) (length lines.now) (length told.old) }
    ensures told { map (λ r. answer r) told.new ≡ program_leaves (program_first n (length arcs.old)) (room table.old records.old words.old sets.old) (map (λ l. l.now) lines.now) (map (λ r. answer r) told.old) }
    ensures reckons { ReckonsFrom (program_first n (length arcs.old)) (room table.old records.old words.old sets.old) (map (λ l. l.now) lines.now) }
{
    let mut made = Holding::<Ledger<Minutes>>::make(Blank { n, arcs })?;
    follow(&mut made, lines, table, records, words, sets, told)
}

// Does what each line says, and tells the answers.
fn follow<C: Catalogue<Label = Minutes>>(
    catalogue: &mut C,
    lines: &[&[u8]],
    table: &mut [Minutes],
    records: &mut [PackageRecord],
    words: &mut [u32],
    sets: &mut [u8],
    told: &mut [Result<Reply, Refusal>],
) -> Result<(), Refusal>
    ensures answers { answer result ≡ follow_answer (length lines.now) (length told.old) }
    ensures told { map (λ r. answer r) told.new ≡ follow_leaves (C.Catalogue.meaning catalogue.old) (room table.old records.old words.old sets.old) (map (λ l. l.now) lines.now) (map (λ r. answer r) told.old) }
{
    if told.len() < lines.len() {
        return Err(Refusal::ShortBuffer);
    }
    for (k, line) in lines.iter().enumerate() {
        told[k] = obey(catalogue, table, records, words, sets, line);
    }
    Ok(())
}
