// What is known of a package once the packages are sorted.
#[derive(Clone, Copy, Default, PartialEq, Eq, Debug)]
#[repr(C)]
pub struct PackageRecord {
    // the name of its group: the lowest number in it
    pub group: u32,
    // the rank of its group: an arc to another group leads to a lower one
    pub rank: u32,
    // the wave of its group in a plan, or NO_WAVE
    pub wave: u32,
}

// The wave of a package that has none.
pub const NO_WAVE: u32 = u32::MAX;
