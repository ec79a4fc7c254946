// The five counts of a plan.
#[derive(Clone, Copy, Default, PartialEq, Eq, Debug)]
#[repr(C)]
pub struct PlanCounts {
    // how many jobs it has, and how many waves
    pub jobs: u32,
    pub waves: u32,
    // of the arcs between its jobs, how many make a wait, and how many do not
    pub merged: u32,
    pub skipped: u32,
    // how many arcs stay within a job
    pub inner: u32,
}
