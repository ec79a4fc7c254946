// Depth-first search over plain tables.
ghost use Rattle.std.specs.Prelude.{◌≡◌, ℕ, ◌+◌, ◌<◌, ◌≤◌, length, slice_index, slice_set};
ghost use Rattle.graphs.specs.Searches.{Graph, Edge, Marked, Closed, Grown, Spread, Whole, white};

// Visits a package that was not visited, and all that it leads to by packages not visited before.
// Answers the new length of `order`, to which each package is added when it is left.
#[cycle(visit_walk)]
#[tactic(auto, using(graphs::proofs::White::white_mark))]
pub(crate) fn visit(
    starts: &[u32],
    targets: &[u32],
    marks: &mut [u32],
    order: &mut [u32],
    count: usize,
    p: usize,
) -> usize
    requires rows { Graph starts.now targets.now (length marks.old) }
    requires room { count + white marks.old ≤ length order.old }
    requires inside { p < length marks.old }
    requires unseen { slice_index marks.old p ≡ 0 }
    requires closed { Closed (Edge starts.now targets.now) marks.old order.old count }
    ensures grown { Grown (Edge starts.now targets.now) p marks.old order.old count marks.new order.new result }
    ensures closed { Closed (Edge starts.now targets.now) marks.new order.new result }
    ensures seen { Marked marks.new p }
    ensures spread { Spread (Edge starts.now targets.now) p marks.old marks.new }
{
    marks[p] = 1;
    let left = walk(starts, targets, marks, order, count, p);
    leave(order, left, p)
}

// Adds to `order`, after its first `count`, a package that is left, and answers its new length.
fn leave(order: &mut [u32], count: usize, p: usize) -> usize
    requires room { count < length order.old }
    requires small { p < 1024 }
    ensures order { order.new ≡ slice_set order.old count p }
    ensures count { result ≡ count + 1 }
{
    order[count] = p as u32;
    count + 1
}

// Takes the arcs of a package in turn; an arc to a package not visited visits it before the next
// arc.
#[cycle(visit_walk)]
fn walk(
    starts: &[u32],
    targets: &[u32],
    marks: &mut [u32],
    order: &mut [u32],
    count: usize,
    p: usize,
) -> usize
    requires rows { Graph starts.now targets.now (length marks.old) }
    requires room { count + white marks.old < length order.old }
    requires inside { p < length marks.old }
    requires closed { Closed (Edge starts.now targets.now) marks.old order.old count }
    ensures grown { Grown (Edge starts.now targets.now) p marks.old order.old count marks.new order.new result }
    ensures closed { Closed (Edge starts.now targets.now) marks.new order.new result }
    ensures walked { (q : ℕ) → Edge starts.now targets.now p q → Marked marks.new q }
{
    let mut left = count;
    let row = &targets[starts[p] as usize..starts[p + 1] as usize];
    for &target in row {
        let target = target as usize;
        if marks[target] == 0 {
            left = visit(starts, targets, marks, order, left, target);
        }
    }
    left
}

// Visits the packages by number; `order` then has them as they were left.
pub(crate) fn finish(starts: &[u32], targets: &[u32], marks: &mut [u32], order: &mut [u32])
    requires rows { Graph starts.now targets.now (length marks.old) }
    requires room { length marks.old ≤ length order.old }
    requires zeros { (v : ℕ) → slice_index marks.old v ≡ 0 }
    ensures whole { Whole (Edge starts.now targets.now) marks.new order.new (length marks.old) }
    ensures all { (v : ℕ) → v < length marks.old → Marked marks.new v }
{
    let mut count = 0;
    for p in 0..marks.len() {
        if marks[p] == 0 {
            count = visit(starts, targets, marks, order, count, p);
        }
    }
}
