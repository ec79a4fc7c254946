// What a line can ask for. It holds numbers and no `Call`: the grammar says which lines are commands
// whatever a label is.
#[derive(Clone, Copy, PartialEq, Eq, Debug)]
pub enum Command {
    Size(u32),
    // from, to, minutes
    Admit(u32, u32, u32),
    // from, to
    Withdraw(u32, u32),
    Hold(u32),
    Lift(u32),
    // from, to
    Label(u32, u32),
    // the one changed package
    Plan(u32),
}
