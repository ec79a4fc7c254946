// Each make, and stacks of layers, from the making on. Each is `exercise_made` at its type, so that
// a contract names the making. The records come apart from n: of a slice lent in a struct, less is
// known after the call.
ghost use Rattle.std.specs.Prelude.{◌≡◌, length};
ghost use Rattle.catalogue.specs.Makings.{ledger_of, sheet_of, turned_over, holding_over};
ghost use Rattle.exercise.specs.Exercised.{FromFirst, FromMaking};

use crate::answers::{Answers, Arguments};
use crate::asking::exercise;
use catalogue::{Blank, Holding, Ledger, Make, Refusal, Sheet, Turned};
use labels::Label;
use paths::Arc;

// Makes a catalogue, asks it every question, then makes a call of each sort.
pub fn exercise_made<S, M: Make<S> + Drop>(
    source: S,
    with: Arguments<M::Label>,
) -> Result<Answers<M::Label>, Refusal>
    ensures { FromFirst M.Label.Label.ops (M.Make.first source) with result }
{
    let mut made = M::make(source)?;
    Ok(exercise(&mut made, with))
}

pub fn exercise_ledger<K: Label>(
    n: u32,
    arcs: &mut [Arc<K>],
    with: Arguments<K>,
) -> Result<Answers<K>, Refusal>
    ensures { FromMaking K.Label.ops K.Label.named (ledger_of n (length arcs.old)) with result }
{
    exercise_made::<_, Ledger<K>>(Blank { n, arcs }, with)
}

pub fn exercise_sheet<K: Label>(bytes: &[u8], with: Arguments<K>) -> Result<Answers<K>, Refusal>
    ensures { FromMaking K.Label.ops K.Label.named (sheet_of bytes.now) with result }
{
    exercise_made::<_, Sheet<K>>(bytes, with)
}

pub fn exercise_turned<K: Label>(
    n: u32,
    arcs: &mut [Arc<K>],
    with: Arguments<K>,
) -> Result<Answers<K>, Refusal>
    ensures { FromMaking K.Label.ops K.Label.named (turned_over (ledger_of n (length arcs.old))) with result }
{
    exercise_made::<_, Turned<Ledger<K>>>(Blank { n, arcs }, with)
}

pub fn exercise_holding<K: Label>(
    n: u32,
    arcs: &mut [Arc<K>],
    with: Arguments<K>,
) -> Result<Answers<K>, Refusal>
    ensures { FromMaking K.Label.ops K.Label.named (holding_over (ledger_of n (length arcs.old))) with result }
{
    exercise_made::<_, Holding<Ledger<K>>>(Blank { n, arcs }, with)
}

pub fn exercise_four_layers<K: Label>(
    n: u32,
    arcs: &mut [Arc<K>],
    with: Arguments<K>,
) -> Result<Answers<K>, Refusal>
    ensures { FromMaking K.Label.ops K.Label.named (holding_over (turned_over (holding_over (turned_over (ledger_of n (length arcs.old)))))) with result }
{
    exercise_made::<_, Holding<Turned<Holding<Turned<Ledger<K>>>>>>(Blank { n, arcs }, with)
}
