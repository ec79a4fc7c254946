// A layer's own list of held packages, in the layer itself: want of memory refuses no hold.
ghost use Rattle.std.specs.Prelude.{◌≡◌, ◌-◌, ◌<◌, ◌≤◌, not, [], ◌∷◌, ◌++◌, length, ◌==◌, nat_lt};
ghost use Rattle.catalogue.specs.Lists.{within, without};
ghost use Rattle.arrayvec.specs.ArrayVec.{array_vec_len};

use arrayvec::ArrayVec;

// How many packages a list takes.
const MOST_HELD: usize = 32;

#[derive(Drop)]
pub struct HeldList {
    list: ArrayVec<u32, MOST_HELD>,
    ghost few: { array_vec_len list ≤ 32 },
}

impl HeldList {
    // Not at the head of the file, since the struct's ghost field reads what stands there.
    ghost use Rattle.catalogue.specs.Holds.{packages};

    pub(crate) fn new() -> HeldList
        ensures { packages result ≡ [] }
    {
        HeldList {
            list: ArrayVec::new(),
        }
    }

    pub(crate) fn has_room(&self) -> bool
        ensures { result ≡ nat_lt 0 (32 - length (packages self.now)) }
    {
        !self.list.is_full()
    }

    pub(crate) fn has(&self, p: u32) -> bool
        ensures { result ≡ within (packages self.now) p }
    {
        self.list.contains(&p)
    }

    pub(crate) fn add(&mut self, p: u32)
        requires { length (packages self.old) < 32 }
        ensures { packages self.new ≡ packages self.old ++ (p ∷ []) }
    {
        self.list.push(p);
    }

    // Takes `p` out of the list, and answers whether it was there.
    pub(crate) fn remove(&mut self, p: u32) -> bool
        ensures found { result ≡ within (packages self.old) p }
        ensures rest { packages self.new ≡ without p (packages self.old) }
    {
        let before = self.list.len();
        self.list.retain(|q| stays(*q, p));
        self.list.len() < before
    }
}

// Does package `q` stay where `lifted` goes?
fn stays(q: u32, lifted: u32) -> bool
    ensures { result ≡ not (lifted == q) }
{
    q != lifted
}
