//! Blocks, of which the trees are made.

ghost use Rattle.std.specs.Prelude.{◌≡◌, ◌<◌, length, slice_set};

/// A block of a tree, and its four quarters. A quarter is 0 where nothing stands in it, else the number of the block below it, counted from 1; in a block of height 1 a quarter is a single cell, 0 or 1.
#[derive(Clone, Copy, Debug, PartialEq, Eq)]
pub struct Block {
    /// The number in each quarter: a plain number, and no `Option`, since a block is laid out as its lender's memory.
    pub children: [u32; 4],
}

impl Block {
    /// Writes a number into quarter `k`.
    pub(crate) fn set(&mut self, k: usize, number: u32)
        requires { k < 4 }
        ensures written { self.new.children ≡ slice_set self.old.children k number }
        ensures four { length self.new.children ≡ 4 }
    {
        self.children[k] = number;
    }
}
