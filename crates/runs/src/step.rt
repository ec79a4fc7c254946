use catalogue::Call;
use plans::PlanCounts;

// A call of a run: one that alters the catalogue; a closing, in the first so many cells of each of
// the run's tables; sort; or plan, in the first so many bytes of its set table and for these changed
// packages. By order, sort and plan take the first so many of its records and words.
pub type Step<'a, L> = StepFor<&'a [u32], L>;

// The packages are of a type argument, since an enum with a reference may hold no label with a ghost
// field.
#[derive(Clone, Copy, PartialEq, Eq, Debug)]
pub enum StepFor<P, L> {
    Alter(Call<L>),
    Rounds(usize),
    Eliminate(usize),
    Order(usize, Room),
    Sort(Room),
    Plan(usize, Room, P),
}

// How many records and work words a call is lent, of those that a run has.
#[derive(Clone, Copy, PartialEq, Eq, Debug)]
pub struct Room {
    pub records: usize,
    pub words: usize,
}

// What a call of a run answers that is taken: a closing by rounds how many rounds there were, sort
// how many groups, plan its counts.
#[derive(Clone, Copy, PartialEq, Eq, Debug)]
pub enum Outcome {
    Altered,
    Rounds(usize),
    Eliminated,
    Ordered,
    Sorted(u32),
    Planned(PlanCounts),
}
