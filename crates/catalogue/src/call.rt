// A call that alters a catalogue, with its arguments, which come apart as in `Catalogue::admit`.
#[derive(Clone, Copy, PartialEq, Eq, Debug)]
pub enum Call<L> {
    Admit(u32, u32, L),
    Withdraw(u32, u32),
    Hold(u32),
    Lift(u32),
}
