//! Which bit a triple has, and whether it is set.

ghost use Rattle.std.specs.Prelude.{◌≡◌, ◌*◌, ◌<◌, length};
ghost use Rattle.grid.specs.Bits.{bit};
ghost use Rattle.grid.specs.Grids.{Places};

use super::Grid;
use graph::{RangeFault, Triple};

impl Grid<'_> {
    /// The bit of a triple, or what of the triple is out of range.
    pub(super) fn place(&self, triple: Triple) -> Result<usize, RangeFault>
        ensures { Places self.now triple result }
    {
        self.counts.check(triple)?;
        let nodes = usize::from(self.counts.nodes);
        let row = usize::from(triple.label) * nodes + usize::from(triple.from);
        Ok(row * nodes + usize::from(triple.to))
    }

    /// Whether a bit is set.
    pub(super) fn is_set(&self, at: usize) -> bool
        requires { at < 64 * length self.now.words.now }
        ensures { result ≡ bit self.now.words.now at }
    {
        (self.words[at / 64] >> (at % 64)) & 1 == 1
    }
}
