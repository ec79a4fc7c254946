// The labels of each kind. A ghost field says that a number fits 32 bits, so that the values of the
// type are exactly the labels.
ghost use Rattle.std.specs.Prelude.{◌^◌, ◌<◌};

// Whether some chain leads there.
#[derive(Clone, Copy, PartialEq, Eq, Debug)]
pub enum Reach {
    No,
    Yes,
}

// How long a chain takes; 4294967295 is none. In C it is its number.
#[repr(C)]
#[derive(Clone, Copy, PartialEq, Eq, Debug)]
pub struct Minutes {
    pub value: u32,
    ghost fits: { value < 2 ^ 32 },
}

// The obligations that a chain brings, one to a bit; all ones is none.
#[derive(Clone, Copy, PartialEq, Eq, Debug)]
pub struct Licence {
    pub mask: u32,
    ghost fits: { mask < 2 ^ 32 },
}
