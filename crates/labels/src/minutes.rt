// Minutes: a number up to 4294967294, or none.
ghost use Rattle.std.specs.Prelude.{◌≡◌};
ghost use Rattle.labels.specs.Kinds.{minutes_ops, minutes_named, no_time, at_once};
ghost use Rattle.labels.specs.Alike.{minutes_then};
ghost use Rattle.labels.specs.Lawful.{minutes_laws, minutes_absorbs, minutes_exact, minutes_unnamed};
ghost use Rattle.std.proofs.Common.{rules, arith};

use crate::kinds::Minutes;
use crate::label::Label;
use crate::words::is_named;
use std::fmt;

impl Label for Minutes {
    const NONE: Minutes = Minutes { value: u32::MAX };

    const WHOLE: Minutes = Minutes { value: 0 };

    ghost NONE = { no_time };

    ghost WHOLE = { at_once };

    ghost ops = { minutes_ops };

    ghost named = { minutes_named };

    ghost laws = { minutes_laws };

    ghost absorbs = { minutes_absorbs };

    ghost exact = { minutes_exact };

    ghost compared = { Prim.search rules };

    ghost none_named = { Prim.search rules };

    ghost whole_named = { Prim.search rules };

    ghost unnamed = { minutes_unnamed };

    fn join(self, other: Minutes) -> Minutes {
        Minutes {
            value: self.value.min(other.value),
        }
    }

    // A sum above the longest time is none.
    fn extend(self, next: Minutes) -> Minutes {
        Minutes {
            value: self.value.saturating_add(next.value),
        }
    }

    #[tactic(auto, using(crate::specs::Alike::minutes_then))]
    fn from_word(word: u32) -> Option<Minutes> {
        is_named(word).then_some(Minutes { value: word })
    }
}

// The number, or `none`.
impl fmt::Display for Minutes {
    ghost use Rattle.std.specs.Prelude.{Some};
    ghost use Rattle.labels.specs.Kinds.{minutes_text};

    ghost output = { λ minutes. Some (minutes_text minutes) };

    fn fmt<W: fmt::Write>(&self, f: &mut fmt::Formatter<W>) -> fmt::Result {
        match *self {
            Minutes::NONE => write!(f, "none"),
            Minutes { value } => write!(f, "{value}"),
        }
    }
}
