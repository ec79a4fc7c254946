// The loops of a catalogue, written out.
use paths::Arc;
use std::alloc::{AllocError, Global};

// A chain that comes to no package twice.
#[derive(Clone, Copy)]
struct Path {
    from: u32,
    to: u32,
    // a bit for each of its packages
    packages: u32,
}

fn bit(p: u32) -> u32 {
    1u32.checked_shl(p).unwrap_or(0)
}

// The packages of each loop that comes to no package twice but to its start, as bits.
#[derive(Drop)]
pub struct Loops {
    all: Vec<u32>,
}

impl Loops {
    // The loops of these arcs, between packages below 32.
    pub(crate) fn new(heap: Global, n: u32, arcs: &[Arc<u32>]) -> Result<Loops, AllocError> {
        let mut loops = Loops {
            all: Vec::new(heap),
        };
        let mut paths: Vec<Path> = (0..n)
            .map(|p| Path {
                from: p,
                to: p,
                packages: bit(p),
            })
            .collect(heap)?;
        // by length, as all chains are
        for _ in 0..n {
            let mut longer = Vec::new(heap);
            for path in paths.iter() {
                for arc in arcs.iter().filter(|arc| arc.from == path.to) {
                    if arc.to == path.from {
                        loops.all.push(path.packages)?;
                    } else if path.packages & bit(arc.to) == 0 {
                        longer.push(Path {
                            from: path.from,
                            to: arc.to,
                            packages: path.packages | bit(arc.to),
                        })?;
                    }
                }
            }
            paths = longer;
        }
        Ok(loops)
    }

    // Do two loops share a package, and has each one that the other has not?
    pub(crate) fn overlap(&self) -> bool {
        self.all.iter().any(|a| {
            self.all
                .iter()
                .any(|b| *a & *b != 0 && *a & !*b != 0 && *b & !*a != 0)
        })
    }

    // Has a loop some of the packages of another, and no others?
    pub(crate) fn nest(&self) -> bool {
        self.all
            .iter()
            .any(|a| self.all.iter().any(|b| *a != *b && *a & !*b == 0))
    }
}
