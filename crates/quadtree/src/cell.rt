//! Cells, of which the trees say whether they stand.

ghost use Rattle.std.specs.Prelude.{◌≡◌, ◌<◌};
ghost use Rattle.quadtree.specs.Links.{quarter_of};

use graph::Triple;

/// The cell of a pair of nodes, (u, v).
#[derive(Clone, Copy)]
pub(crate) struct Cell {
    pub(crate) u: u16,
    pub(crate) v: u16,
}

impl From<Triple> for Cell {
    ghost from_gives = { λ t c. (c.u ≡ t.from) × (c.v ≡ t.to) };

    fn from(triple: Triple) -> Self {
        Cell {
            u: triple.from,
            v: triple.to,
        }
    }
}

impl Cell {
    /// The quarter of a block of height `j` + 1 in which the cell lies.
    pub(crate) fn quarter(self, j: u8) -> usize
        requires { j < 16 }
        ensures is { result ≡ quarter_of j self.u self.v }
        ensures of_four { result < 4 }
    {
        usize::from(2 * ((self.u >> j) % 2) + (self.v >> j) % 2)
    }
}
