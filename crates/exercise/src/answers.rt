// What is asked of a catalogue, and what it answers.
use catalogue::Refusal;
use paths::Arc;

#[derive(Clone, Copy, PartialEq, Eq, Debug)]
pub struct Arguments<K> {
    pub from: u32,
    pub to: u32,
    pub label: K,
    pub package: u32,
    pub place: usize,
}

// The answers to every question.
#[derive(Clone, Copy, PartialEq, Eq, Debug)]
pub struct Replies<K> {
    pub n: u32,
    pub stock_len: usize,
    pub places_left: usize,
    pub sealed: bool,
    pub is_held: bool,
    pub can_hold: bool,
    pub arc: Option<Arc<K>>,
}

// The answers to one call of each sort, in the order in which they were made.
#[derive(Clone, Copy, PartialEq, Eq, Debug)]
pub struct Outcomes {
    pub admit: Result<(), Refusal>,
    pub hold: Result<(), Refusal>,
    pub lift: Result<(), Refusal>,
    pub withdraw: Result<usize, Refusal>,
}

#[derive(Clone, Copy, PartialEq, Eq, Debug)]
pub struct Answers<K> {
    pub replies: Replies<K>,
    pub outcomes: Outcomes,
}
