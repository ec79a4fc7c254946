// Labels by the rules alone: every chain is written out.
use crate::kinds::Kind;
use paths::Arc;
use std::alloc::{AllocError, Global};
use std::marker::PhantomData;

#[derive(Clone, Copy)]
struct Chain {
    arcs: u32,
    from: u32,
    to: u32,
    word: u32,
}

// The chains of at most n + 1 arcs of a catalogue of n packages.
#[derive(Drop)]
pub struct Chains<K> {
    n: u32,
    all: Vec<Chain>,
    kind: PhantomData<K>,
}

impl<K: Kind> Chains<K> {
    // The chains of these arcs.
    pub(crate) fn new(heap: Global, n: u32, arcs: &[Arc<u32>]) -> Result<Chains<K>, AllocError> {
        let mut all: Vec<Chain> = arcs
            .iter()
            .map(|arc| Chain {
                arcs: 1,
                from: arc.from,
                to: arc.to,
                word: arc.label,
            })
            .collect(heap)?;
        // by length, since chains of one length make those of the next
        for length in 1..=n {
            let mut longer = Vec::new(heap);
            for chain in all.iter().filter(|chain| chain.arcs == length) {
                for arc in arcs.iter().filter(|arc| arc.from == chain.to) {
                    longer.push(Chain {
                        arcs: length.saturating_add(1),
                        from: chain.from,
                        to: arc.to,
                        word: K::extend_words(chain.word, arc.label),
                    })?;
                }
            }
            all.extend_from_slice(longer.as_slice())?;
        }
        Ok(Chains {
            n,
            all,
            kind: PhantomData,
        })
    }

    pub(crate) fn n(&self) -> u32 {
        self.n
    }

    // L(most) of a pair: the join over its chains of 1 to `most` arcs, or none.
    fn within(&self, most: u32, from: u32, to: u32) -> u32 {
        self.all
            .iter()
            .filter(|chain| chain.arcs <= most && chain.from == from && chain.to == to)
            .fold(K::NO_WORD, |word, chain| K::join_words(word, chain.word))
    }

    // L(n) of a pair.
    pub(crate) fn word(&self, from: u32, to: u32) -> u32 {
        self.within(self.n, from, to)
    }

    // Is L(m + 1) = L(m)?
    fn still(&self, m: u32) -> bool {
        let more = m.saturating_add(1);
        (0..self.n).all(|i| (0..self.n).all(|j| self.within(m, i, j) == self.within(more, i, j)))
    }

    // The least m of 1 or more with L(m + 1) = L(m), if there is one up to n.
    pub(crate) fn rounds(&self) -> Option<usize> {
        (1..=self.n).find(|m| self.still(*m)).map(|m| m as usize)
    }

    // Does a chain lead back to its start?
    pub(crate) fn loops(&self) -> bool {
        self.all.iter().any(|chain| chain.from == chain.to)
    }

    // Is the label of a chain none?
    pub(crate) fn lost(&self) -> bool {
        self.all.iter().any(|chain| chain.word == K::NO_WORD)
    }

    // Is there a loop, and the label of every loop none?
    pub(crate) fn loops_without_label(&self) -> bool {
        self.loops() && (0..self.n).all(|p| self.word(p, p) == K::NO_WORD)
    }

    // Has a pair another label by shorter chains, which is not none?
    pub(crate) fn changed(&self) -> bool {
        (1..self.n).any(|m| (0..self.n).any(|i| (0..self.n).any(|j| self.changes(m, i, j))))
    }

    // Has a pair another label by chains of 1 to `most` arcs, which is not none?
    fn changes(&self, most: u32, from: u32, to: u32) -> bool {
        let early = self.within(most, from, to);
        early != K::NO_WORD && early != self.word(from, to)
    }
}
