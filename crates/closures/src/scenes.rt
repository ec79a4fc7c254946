// Calls on small catalogues that look random, in words.
use crate::closed::label;
use crate::kinds::Kind;
use cases::{Reference, Rolls};
use catalogue::Call;
use labels::Label;
use paths::Arc;
use std::alloc::{AllocError, Global};

// The arcs that every ledger has room for.
pub const PLACES: usize = 8;

// Where the arcs of a catalogue lead.
#[derive(Clone, Copy)]
pub enum Ways {
    Any,
    // to the next number or the one before
    Near,
    // both ways within 0 and 1, within 2 and 3, and so on, and else to a lower number
    Pairs,
    // to a higher number, so that no chain leads back to its start
    Up,
    // to a lower one
    Down,
}

impl Ways {
    pub(crate) fn rolled(rolls: &mut Rolls) -> Ways {
        match rolls.below(6) {
            0 => Ways::Up,
            1 => Ways::Down,
            2 => Ways::Near,
            3 => Ways::Pairs,
            _ => Ways::Any,
        }
    }

    // The start and the end of an arc of these two packages.
    fn ends(self, p: u32, q: u32) -> (u32, u32) {
        match self {
            Ways::Any => (p, q),
            Ways::Near if p < q => (p, p.saturating_add(1)),
            Ways::Near => (p, p.saturating_sub(1)),
            Ways::Pairs if p ^ 1 <= p.max(q) => (p, p ^ 1),
            Ways::Pairs => (p, q),
            Ways::Up => (p.min(q), p.max(q)),
            Ways::Down => (p.max(q), p.min(q)),
        }
    }
}

fn arc<K: Kind>(rolls: &mut Rolls, n: u32, ways: Ways) -> Arc<u32> {
    let p = rolls.below(n);
    let q = rolls.below(n);
    let (from, to) = ways.ends(p, q);
    let small = rolls.below(9);
    Arc {
        from,
        to,
        label: K::word(small, rolls),
    }
}

pub(crate) fn admission<K: Kind>(rolls: &mut Rolls, n: u32, ways: Ways) -> Call<u32> {
    let arc = arc::<K>(rolls, n, ways);
    Call::Admit(arc.from, arc.to, arc.label)
}

// Mostly an admission, and else one of the other calls.
pub(crate) fn any_call<K: Kind>(rolls: &mut Rolls, n: u32, ways: Ways) -> Call<u32> {
    let arc = arc::<K>(rolls, n, ways);
    match rolls.below(10) {
        0 => Call::Withdraw(arc.from, arc.to),
        1 | 2 => Call::Hold(arc.from),
        3 => Call::Lift(arc.from),
        _ => Call::Admit(arc.from, arc.to, arc.label),
    }
}

// The call with a label in place of a word. As a `From` between two types of other crates it would
// be refused.
fn in_labels<K: Label>(call: Call<u32>) -> Call<K> {
    match call {
        Call::Admit(from, to, word) => Call::Admit(from, to, label(word)),
        Call::Withdraw(from, to) => Call::Withdraw(from, to),
        Call::Hold(p) => Call::Hold(p),
        Call::Lift(p) => Call::Lift(p),
    }
}

// The calls with labels in place of words. A loop, since the borrow checker does not cover a `map`
// whose result names a kind that neither its argument nor what its closure captures names.
pub(crate) fn labelled<K: Label>(
    heap: Global,
    calls: &[Call<u32>],
) -> Result<Vec<Call<K>>, AllocError> {
    let mut labelled_calls = Vec::new(heap);
    for call in calls {
        labelled_calls.push(in_labels(*call))?;
    }
    Ok(labelled_calls)
}

// The arcs in force, in their order.
pub(crate) fn in_force(
    heap: Global,
    reference: &Reference<u32>,
) -> Result<Vec<Arc<u32>>, AllocError> {
    (0..reference.stock_len())
        .filter_map(|k| reference.arc_at(k))
        .collect(heap)
}
