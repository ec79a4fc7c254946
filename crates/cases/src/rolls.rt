// Numbers that look random, the same on every run.
ghost use Rattle.std.specs.Prelude.{◌≡◌, ◌<◌};
ghost use Rattle.cases.specs.Rolled.{Near};

use catalogue::Call;
use labels::Minutes;

#[derive(Drop)]
pub struct Rolls {
    state: u32,
}

impl Rolls {
    pub fn new(seed: u32) -> Rolls
        ensures { result.state ≡ seed }
    {
        Rolls { state: seed }
    }

    // A number below `end`, or 0.
    pub fn below(&mut self, end: u32) -> u32
        ensures below { 0 < end → result < end }
        ensures none { end ≡ 0 → result ≡ 0 }
    {
        self.state = self.state.wrapping_mul(1664525).wrapping_add(1013904223);
        let high = self.state >> 12;
        high.checked_rem(end).unwrap_or(0)
    }

    // A call on a catalogue of `n` packages: a package number can be `n` too, ends can be equal,
    // and one label in eight is none.
    pub fn call(&mut self, n: u32) -> Call<Minutes>
        ensures { Near n result }
    {
        let end = n.saturating_add(1);
        let sort = self.below(8);
        let from = self.below(end);
        let to = self.below(end);
        let value = if self.below(8) == 0 {
            u32::MAX
        } else {
            self.below(100)
        };
        match sort {
            0..=2 => Call::Admit(from, to, Minutes { value }),
            3 | 4 => Call::Withdraw(from, to),
            5 | 6 => Call::Hold(from),
            _ => Call::Lift(from),
        }
    }
}
