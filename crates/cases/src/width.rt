// How wide a chain is; 0 is none.
ghost use Rattle.std.specs.Prelude.{◌^◌, ◌<◌};

#[derive(Clone, Copy, PartialEq, Eq, Debug)]
pub struct Width {
    pub value: u32,
    ghost fits: { value < 2 ^ 32 },
}
