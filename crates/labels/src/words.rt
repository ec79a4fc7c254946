// Words that name themselves.
ghost use Rattle.std.specs.Prelude.{◌≡◌};
ghost use Rattle.labels.specs.Kinds.{names_itself};

// Every word but the one of all ones, which would be none.
pub(crate) fn is_named(word: u32) -> bool
    ensures { result ≡ names_itself word }
{
    word < u32::MAX
}
