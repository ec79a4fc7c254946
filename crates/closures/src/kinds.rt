// The label kinds by the rules alone, apart from the labels' own operations: a label is a word.
use cases::{Rolls, Width};
use labels::{Label, Licence, Minutes, Reach};

pub trait Kind: Label {
    // The word of the label none.
    const NO_WORD: u32;

    // Can a chain of arcs be none?
    const LOSES: bool;

    // Can a longer chain change a pair's label that is not none?
    const CHANGES: bool;

    fn join_words(a: u32, b: u32) -> u32;

    fn extend_words(a: u32, b: u32) -> u32;

    // A word but for none, from a number below 9 and what else is rolled.
    fn word(small: u32, rolls: &mut Rolls) -> u32;
}

// 0 is no, 1 is yes.
impl Kind for Reach {
    const NO_WORD: u32 = 0;

    const LOSES: bool = false;

    const CHANGES: bool = false;

    fn join_words(a: u32, b: u32) -> u32 {
        a | b
    }

    fn extend_words(a: u32, b: u32) -> u32 {
        a & b
    }

    fn word(_small: u32, _rolls: &mut Rolls) -> u32 {
        1
    }
}

impl Kind for Minutes {
    const NO_WORD: u32 = u32::MAX;

    const LOSES: bool = true;

    const CHANGES: bool = true;

    fn join_words(a: u32, b: u32) -> u32 {
        a.min(b)
    }

    // A sum of minutes above 4294967294 is none.
    fn extend_words(a: u32, b: u32) -> u32 {
        a.saturating_add(b)
    }

    // Half of the minutes are so long that two in a chain are too long.
    fn word(small: u32, rolls: &mut Rolls) -> u32 {
        if rolls.below(2) == 0 {
            small
        } else {
            4294967294u32.saturating_sub(small)
        }
    }
}

impl Kind for Licence {
    const NO_WORD: u32 = u32::MAX;

    const LOSES: bool = true;

    const CHANGES: bool = true;

    fn join_words(a: u32, b: u32) -> u32 {
        a & b
    }

    fn extend_words(a: u32, b: u32) -> u32 {
        a | b
    }

    // Half of the masks are so full that a chain can have every bit; no mask has.
    fn word(small: u32, rolls: &mut Rolls) -> u32 {
        if rolls.below(2) == 0 {
            small
        } else {
            !small.max(1)
        }
    }
}

impl Kind for Width {
    const NO_WORD: u32 = 0;

    const LOSES: bool = false;

    const CHANGES: bool = true;

    fn join_words(a: u32, b: u32) -> u32 {
        a.max(b)
    }

    fn extend_words(a: u32, b: u32) -> u32 {
        a.min(b)
    }

    fn word(small: u32, _rolls: &mut Rolls) -> u32 {
        small.saturating_add(1)
    }
}
