// Reach: no or yes.
ghost use Rattle.labels.specs.Kinds.{reach_ops, reach_named};
ghost use Rattle.labels.specs.declared.kinds.Reach.TheVariants.{No, Yes};
ghost use Rattle.std.proofs.Common.{rules};

use crate::kinds::Reach;
use crate::label::Label;

impl Label for Reach {
    const NONE: Reach = Reach::No;

    const WHOLE: Reach = Reach::Yes;

    ghost NONE = { No };

    ghost WHOLE = { Yes };

    ghost ops = { reach_ops };

    ghost named = { reach_named };

    ghost laws = { Prim.search rules };

    ghost absorbs = { Prim.search rules };

    ghost exact = { Prim.search rules };

    ghost compared = { Prim.search rules };

    ghost none_named = { Prim.search rules };

    ghost whole_named = { Prim.search rules };

    ghost unnamed = { Prim.search rules };

    fn join(self, other: Reach) -> Reach {
        match self {
            Self::No => other,
            Self::Yes => Self::Yes,
        }
    }

    fn extend(self, next: Reach) -> Reach {
        match self {
            Self::No => Self::No,
            Self::Yes => next,
        }
    }

    fn from_word(word: u32) -> Option<Reach> {
        (word == 1).then_some(Self::Yes)
    }
}
