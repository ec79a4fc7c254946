ghost use Rattle.std.specs.Prelude.{◌≡◌};
ghost use Rattle.paths.specs.Arcs.{between, turn};

// Package `from` depends on package `to`.
#[derive(Clone, Copy, PartialEq, Eq, Debug)]
pub struct Arc<K> {
    pub from: u32,
    pub to: u32,
    pub label: K,
}

impl<K: Copy> Arc<K> {
    // Has the arc these ends?
    pub fn joins(&self, from: u32, to: u32) -> bool
        ensures { result ≡ between from to self.now }
    {
        self.from == from && self.to == to
    }

    // The arc with its two ends exchanged.
    pub fn turned(self) -> Arc<K>
        ensures { result ≡ turn self }
    {
        Arc {
            from: self.to,
            to: self.from,
            ..self
        }
    }
}
