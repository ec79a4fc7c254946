// Licence: a mask of obligations. Of two chains only what both bring counts; a chain brings what
// each of its arcs brings.
ghost use Rattle.std.specs.Prelude.{◌≡◌};
ghost use Rattle.labels.specs.Kinds.{licence_ops, licence_named, no_licence, free};
ghost use Rattle.labels.specs.Lawful.{licence_laws, licence_absorbs, licence_exact, licence_unnamed};
ghost use Rattle.std.proofs.Common.{rules, arith};

use crate::kinds::Licence;
use crate::label::Label;
use crate::words::is_named;

impl Label for Licence {
    const NONE: Licence = Licence { mask: u32::MAX };

    const WHOLE: Licence = Licence { mask: 0 };

    ghost NONE = { no_licence };

    ghost WHOLE = { free };

    ghost ops = { licence_ops };

    ghost named = { licence_named };

    ghost laws = { licence_laws };

    ghost absorbs = { licence_absorbs };

    ghost exact = { licence_exact };

    ghost compared = { Prim.search rules };

    ghost none_named = { Prim.search rules };

    ghost whole_named = { Prim.search rules };

    ghost unnamed = { licence_unnamed };

    fn join(self, other: Licence) -> Licence {
        Licence {
            mask: self.mask & other.mask,
        }
    }

    fn extend(self, next: Licence) -> Licence {
        Licence {
            mask: self.mask | next.mask,
        }
    }

    #[tactic(auto, using(crate::specs::Alike::licence_then))]
    fn from_word(word: u32) -> Option<Licence> {
        is_named(word).then_some(Licence { mask: word })
    }
}
