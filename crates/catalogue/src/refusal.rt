// Why a call is refused.
use std::error::Error;
use std::fmt;

// With the number by which each is known outside.
#[derive(Clone, Copy, PartialEq, Eq, Debug)]
pub enum Refusal {
    // n is 0 or above its limit
    BadCount = 1,
    // a sheet too short, too long, or of too many arcs
    BadSize = 2,
    // a run with a wrong offset, an uneven length, or an end past the sheet's
    BadRun = 3,
    // a label that is none, or a word that names no label
    LabelNone = 4,
    Sealed = 5,
    // a package number of n or more
    NoPackage = 6,
    EqualEnds = 7,
    // no places left
    Full = 8,
    NoSuchArc = 9,
    AlreadyHeld = 10,
    // no holds left
    NoHolds = 11,
    NotHeld = 12,
    // a buffer shorter than the call needs
    ShortBuffer = 13,
    // a chain leads back to its start
    Loop = 14,
    // a changed package that is held
    Held = 15,
    // a line that is no command here
    NotCommand = 16,
}

impl From<Refusal> for u32 {
    ghost use Rattle.std.specs.Prelude.{◌≡◌};
    ghost use Rattle.catalogue.specs.Refusals.{number};

    ghost from_gives = { λ refusal n. n ≡ number refusal };

    fn from(refusal: Refusal) -> u32 {
        refusal as u32
    }
}

// As the program answers.
impl fmt::Display for Refusal {
    ghost use Rattle.std.specs.Prelude.{Some};
    ghost use Rattle.catalogue.specs.Refusals.{refusal_text};

    ghost output = { λ refusal. Some (refusal_text refusal) };

    fn fmt<W: fmt::Write>(&self, f: &mut fmt::Formatter<W>) -> fmt::Result {
        write!(f, "refused {}", u32::from(*self))
    }
}

impl Error for Refusal {}
