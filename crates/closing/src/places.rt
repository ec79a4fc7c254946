// Where the rows and cells of a table of n × n labels lie.
// A table is a slice beside its `Side`: a struct of the two would save no clause, since each of its
// methods would have to promise that it keeps both.
ghost use Rattle.std.specs.Prelude.{◌≡◌, ◌+◌, ◌*◌, ◌<◌, ◌≤◌};

use catalogue::Catalogue;

// The side of a square table: the number of packages, and so of rows and columns.
#[derive(Clone, Copy)]
pub(crate) struct Side {
    pub(crate) n: usize,
    ghost few: { n ≤ 1024 },
}

impl Side {
    pub(crate) fn of<C: Catalogue>(catalogue: &C) -> Side
        ensures { result.n ≡ (C.Catalogue.meaning catalogue.now).n }
    {
        Side {
            n: catalogue.n() as usize,
        }
    }

    // Where row `i` starts.
    pub(crate) fn row_start(self, i: u32) -> usize
        requires row { i < self.n }
        ensures is { result ≡ i * self.n }
        ensures within { result + self.n ≤ self.n * self.n }
    {
        i as usize * self.n
    }

    // The place of the pair (i, j).
    pub(crate) fn place(self, i: u32, j: u32) -> usize
        requires row { i < self.n }
        requires column { j < self.n }
        ensures is { result ≡ i * self.n + j }
        ensures below { result < self.n * self.n }
    {
        self.row_start(i) + j as usize
    }

    // The number of cells.
    pub(crate) fn area(self) -> usize
        ensures is { result ≡ self.n * self.n }
        ensures most { result ≤ 1048576 }
    {
        self.n * self.n
    }
}
