// The planner's program: commands from standard input, one to a line; an answer for each.
#![tactic(auto)]

mod input;

use catalogue::{Blank, Catalogue, Holding, Ledger, Make};
use closing::PackageRecord;
use console::jobs::Answer;
use console::session::{MOST_PACKAGES, obey, open_with};
use input::Input;
use labels::{Label, Minutes};
use paths::Arc;
use std::io;

// The most arcs that the program keeps.
const PLACES: usize = 512;

// A record for each package; a cell for the label, and a byte for the jobs, of each pair; and as many
// work words as sort and plan want.
const RECORDS: usize = MOST_PACKAGES as usize;

const CELLS: usize = RECORDS * RECORDS;

const WORDS: usize = 16 * RECORDS + PLACES;

fn main(rt: HostRuntime) -> io::Result<()> {
    let mut arcs = [Arc {
        from: 0,
        to: 0,
        label: Minutes::NONE,
    }; PLACES];
    let mut table = [Minutes::NONE; CELLS];
    let mut records = [PackageRecord::default(); RECORDS];
    let mut words = [0; WORDS];
    let mut sets = [0; CELLS];
    let mut input = Input::new(rt.stdin());
    let Some(n) = first_size(&rt, &mut input)? else {
        return Ok(());
    };
    match Holding::<Ledger<Minutes>>::make(Blank { n, arcs: &mut arcs }) {
        Ok(mut catalogue) => {
            println!(rt; "ok")?;
            serve(
                &rt,
                &mut input,
                &mut catalogue,
                &mut table,
                &mut records,
                &mut words,
                &mut sets,
            )
        }
        // not for an n of 1 to 64
        Err(refusal) => println!(rt; "{refusal}"),
    }
}

// Answers lines until one sets n; nothing where the input ends before that.
fn first_size(rt: &HostRuntime, input: &mut Input) -> io::Result<Option<u32>> {
    for line in input.by_ref().take(usize::MAX) {
        match open_with(line.line()) {
            Ok(n) => return Ok(Some(n)),
            Err(refusal) => println!(rt; "{refusal}")?,
        }
    }
    Ok(None)
}

// Answers lines until the input ends.
fn serve<C: Catalogue<Label = Minutes>>(
    rt: &HostRuntime,
    input: &mut Input,
    catalogue: &mut C,
    table: &mut [Minutes],
    records: &mut [PackageRecord],
    words: &mut [u32],
    sets: &mut [u8],
) -> io::Result<()> {
    for line in input.by_ref().take(usize::MAX) {
        let told = obey(catalogue, table, records, words, sets, line.line());
        let n = catalogue.n();
        let answer = Answer {
            told,
            n,
            records,
            sets,
        };
        println!(rt; "{answer}")?;
    }
    Ok(())
}
