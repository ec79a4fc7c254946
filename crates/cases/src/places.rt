// A ledger, and what it is made over.
ghost use Rattle.std.specs.Prelude.{◌≡◌, IfOk, vec_len, length};
ghost use Rattle.catalogue.specs.Refusals.{meant};
ghost use Rattle.catalogue.specs.Ledgers.{ledger};
ghost use Rattle.catalogue.specs.Makings.{ledger_of, first_meaning};

use catalogue::{Blank, Ledger, Make, Refusal};
use labels::Label;
use paths::Arc;
use std::alloc::{AllocError, Global};

// So many places for arcs.
pub fn blank<K: Label>(heap: Global, places: usize) -> Result<Vec<Arc<K>>, AllocError>
    ensures { IfOk result (λ arcs. vec_len arcs ≡ places) }
{
    let none = Arc {
        from: 0,
        to: 0,
        label: K::NONE,
    };
    Ok(vec![in heap; none; places]?)
}

// A ledger of `n` packages, made over these records.
pub fn empty_ledger<'a, K: Label>(n: u32, arcs: &'a mut [Arc<K>]) -> Result<Ledger<'a, K>, Refusal>
    ensures { meant (λ s. ledger s.n s.len s.arcs.now) result ≡ first_meaning K.Label.ops K.Label.named (ledger_of n (length arcs.old)) }
{
    Ledger::make(Blank { n, arcs })
}
