// Checks for what tests share: a failure is handed on, and ends nothing.
ghost use Rattle.std.specs.Prelude.{◌≡◌, is_ok};

use std::fmt::Debug;
use std::test::Fail;

pub fn check(holds: bool) -> Result<(), Fail>
    ensures { is_ok result ≡ holds }
{
    if holds {
        Ok(())
    } else {
        Err(Fail::new("it does not hold"))
    }
}

pub fn check_eq<T: PartialEq + Debug + Drop>(left: T, right: T) -> Result<(), Fail>
    ensures { is_ok result ≡ T.eq left right }
{
    if left == right {
        Ok(())
    } else {
        Err(Fail::new(format_args!("{left:?} is not {right:?}")))
    }
}
