// Groups of packages by the rules alone: arc by arc, which package leads to which.
use paths::Arc;
use std::alloc::{AllocError, Global};

#[derive(Drop)]
pub struct Groups {
    n: u32,
    // for each pair of packages, row by row: does a chain of one arc or more lead there?
    led: Vec<bool>,
    // the name of each package's group
    names: Vec<u32>,
}

impl Groups {
    // The groups that these arcs make of `n` packages.
    pub(crate) fn new(heap: Global, n: u32, arcs: &[Arc<u32>]) -> Result<Groups, AllocError> {
        let mut groups = Groups {
            n,
            led: vec![in heap; false; cells(n)]?,
            names: Vec::new(heap),
        };
        // each pass enters at least the chains of one arc more
        for _ in 0..n {
            for arc in arcs {
                groups.follow(arc);
            }
        }
        for p in 0..n {
            let name = groups.lowest(p);
            groups.names.push(name)?;
        }
        Ok(groups)
    }

    // Enters what leads to the end of an arc: its start, and all that leads there.
    fn follow(&mut self, arc: &Arc<u32>) {
        for p in 0..self.n {
            if p == arc.from || self.leads(p, arc.from) {
                if let Some(cell) = self.led.get_mut(place(self.n, p, arc.to)) {
                    *cell = true;
                }
            }
        }
    }

    // The lowest number in a package's group.
    fn lowest(&self, p: u32) -> u32 {
        (0..p).find(|q| self.together(p, *q)).unwrap_or(p)
    }

    pub(crate) fn n(&self) -> u32 {
        self.n
    }

    // Does a chain of one arc or more lead from one to the other?
    pub(crate) fn leads(&self, from: u32, to: u32) -> bool {
        self.led.get(place(self.n, from, to)) == Some(&true)
    }

    // Are the two in one group?
    pub(crate) fn together(&self, p: u32, q: u32) -> bool {
        p == q || (self.leads(p, q) && self.leads(q, p))
    }

    // The name of a package's group, and of what is no package itself.
    pub(crate) fn name(&self, p: u32) -> u32 {
        self.names.get(p as usize).copied().unwrap_or(p)
    }

    // Has the package the name of its group?
    fn names_its_own(&self, p: u32) -> bool {
        self.name(p) == p
    }

    // How many groups there are.
    pub(crate) fn len(&self) -> usize {
        (0..self.n).filter(|p| self.names_its_own(*p)).count()
    }

    // How many groups there are in which a chain leads back to its start.
    pub(crate) fn loops(&self) -> usize {
        (0..self.n)
            .filter(|p| self.names_its_own(*p) && self.leads(*p, *p))
            .count()
    }
}

// How many pairs of `n` packages there are.
pub(crate) fn cells(n: u32) -> usize {
    n.saturating_mul(n) as usize
}

// The place of a pair, row by row.
pub(crate) fn place(n: u32, from: u32, to: u32) -> usize {
    from.saturating_mul(n).saturating_add(to) as usize
}
