// What every label kind has and owes.
ghost use Rattle.std.specs.Prelude.{◌≡◌, ℕ, Option};
ghost use Rattle.labels.specs.Algebra.{Ops, Laws, Absorbs, Exact, Unnamed};

// A path algebra: `join` chooses between chains, `extend` follows one by another.
pub trait Label: Copy + PartialEq {
    // There is no chain, or none that counts.
    const NONE: Self;

    // The label of the chain of no arcs.
    const WHOLE: Self;

    ghost NONE: { Self };

    ghost WHOLE: { Self };

    ghost ops: { Ops Self };

    // The label that a 32-bit word names, if any.
    ghost named: { ℕ → Option Self };

    fn join(self, other: Self) -> Self
        ensures { result ≡ ops.join self other };

    fn extend(self, next: Self) -> Self
        ensures { result ≡ ops.extend self next };

    // No `TryFrom`: its error type would say no more than `None`.
    fn from_word(word: u32) -> Option<Self>
        ensures { result ≡ named word };

    // Are the two labels equal? It is `==`, told in the algebra's words.
    final fn same(self, other: Self) -> bool
        ensures { result ≡ ops.same self other }
    {
        self == other
    }

    ghost laws: { Laws ops };

    // Stands apart: a kind that counts chains has every law but this one.
    ghost absorbs: { Absorbs ops };

    ghost exact: { Exact ops };

    ghost compared: { (a b : Self) → Self.eq a b ≡ ops.same a b };

    ghost none_named: { NONE ≡ ops.none };

    ghost whole_named: { WHOLE ≡ ops.whole };

    ghost unnamed: { Unnamed ops named };
}
