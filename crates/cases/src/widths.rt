// Width as a label kind: of two chains the wider, and a chain is as wide as its narrowest arc.
ghost use Rattle.cases.specs.Widths.{width_ops, width_named, no_width, full_width};
ghost use Rattle.cases.specs.Wide.{width_laws, width_absorbs, width_exact, width_unnamed};
ghost use Rattle.std.proofs.Common.{rules};

use crate::width::Width;
use labels::Label;

impl Label for Width {
    const NONE: Width = Width { value: 0 };

    const WHOLE: Width = Width { value: u32::MAX };

    ghost NONE = { no_width };

    ghost WHOLE = { full_width };

    ghost ops = { width_ops };

    ghost named = { width_named };

    ghost laws = { width_laws };

    ghost absorbs = { width_absorbs };

    ghost exact = { width_exact };

    ghost compared = { Prim.search rules };

    ghost none_named = { Prim.search rules };

    ghost whole_named = { Prim.search rules };

    ghost unnamed = { width_unnamed };

    fn join(self, other: Width) -> Width {
        Width {
            value: self.value.max(other.value),
        }
    }

    fn extend(self, next: Width) -> Width {
        Width {
            value: self.value.min(next.value),
        }
    }

    #[tactic(auto, using(crate::specs::Wide::width_then))]
    fn from_word(word: u32) -> Option<Width> {
        (word != 0).then_some(Width { value: word })
    }
}
