// What kinds of groups random catalogues have.
use crate::groups::Groups;
use crate::loops::Loops;
use cases::{Reference, check, count};
use catalogue::Call;
use paths::Arc;
use std::alloc::{AllocError, Global};
use std::test::Fail;

// In how many catalogues of one make something was seen.
#[derive(Clone, Copy, Default)]
pub struct Shapes {
    // a chain back to its start
    looped: usize,
    // arcs, and no such chain
    straight: usize,
    // two groups with such chains
    several: usize,
    // two loops that share a package, and each has one that the other has not
    overlapping: usize,
    // a loop with some of the packages of another, and no others
    nested: usize,
    // a held package
    held: usize,
    // an arc to a held package from one that is not held
    to_held: usize,
    // a loop in the stock, and none of arcs in force
    opened: usize,
}

impl Shapes {
    // Of any make.
    pub(crate) fn check(&self) -> Result<(), Fail> {
        check(self.looped > 0)?;
        check(self.straight > 0)?;
        check(self.several > 0)?;
        check(self.overlapping > 0)?;
        check(self.nested > 0)
    }

    // Of a make that can hold.
    pub(crate) fn check_holds(&self) -> Result<(), Fail> {
        check(self.held > 0)?;
        check(self.to_held > 0)?;
        check(self.opened > 0)
    }

    // Notes the groups that these arcs make, which are those in force.
    pub(crate) fn note(
        &mut self,
        heap: Global,
        arcs: &[Arc<u32>],
        groups: &Groups,
    ) -> Result<(), AllocError> {
        count(&mut self.looped, groups.loops() > 0);
        count(&mut self.straight, groups.loops() == 0 && !arcs.is_empty());
        count(&mut self.several, groups.loops() > 1);
        let loops = Loops::new(heap, groups.n(), arcs)?;
        count(&mut self.overlapping, loops.overlap());
        count(&mut self.nested, loops.nest());
        Ok(())
    }

    // Notes what is held, where these arcs are in force. All is lifted then.
    pub(crate) fn note_holds(
        &mut self,
        heap: Global,
        reference: &mut Reference<u32>,
        groups: &Groups,
    ) -> Result<(), AllocError> {
        let held: Vec<u32> = (0..reference.n())
            .filter(|p| reference.is_held(*p))
            .collect(heap)?;
        for p in held.iter() {
            reference.run(&[Call::Lift(*p)])?;
        }
        let stock: Vec<Arc<u32>> = (0..reference.stock_len())
            .filter_map(|k| reference.arc_at(k))
            .collect(heap)?;
        let all = Groups::new(heap, reference.n(), stock.as_slice())?;
        count(&mut self.held, !held.is_empty());
        let to_held = stock
            .iter()
            .any(|arc| held.contains(&arc.to) && !held.contains(&arc.from));
        count(&mut self.to_held, to_held);
        count(&mut self.opened, all.loops() > 0 && groups.loops() == 0);
        Ok(())
    }
}
