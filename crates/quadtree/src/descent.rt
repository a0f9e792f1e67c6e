//! The ways down a tree: to see how many links are lacking on the way to a cell, and to insert one. Both go by recursion, and the height falls at each call.

ghost use Rattle.std.specs.Prelude.{◌≡◌, ◌+◌, ◌-◌, ◌^◌, ◌<◌, ◌≤◌, length};
ghost use Rattle.quadtree.specs.Growth.{Tree, Opened, Grown};
ghost use Rattle.quadtree.specs.Links.{lacks, lacking_links};
ghost use Rattle.quadtree.specs.Making.{capacity_of};
ghost use Rattle.quadtree.specs.Pools.{links, Untouched};

use crate::block::Block;
use crate::cell::Cell;

/// How many links are lacking on the way from the link down to the cell: one for each block that is lacking and one for the cell, so 0 just where the cell stands. The link is a number as in a quarter, where the next one is read.
// A plain number: with an `Option` in its place the compiled code has a call at each level, and with a number a loop.
pub(crate) fn lacking_links(blocks: &[Block], link: u32, height: u8, at: Cell) -> u8
    requires low { height ≤ 16 }
    requires tree { Tree (links blocks.now) link height (length blocks.now) }
    ensures { result ≡ lacking_links (links blocks.now) link height at.u at.v }
{
    if link == 0 {
        return height + 1;
    }
    if height == 0 {
        return 0;
    }
    // `as`, here and below: there is no `From` from `u32` to `usize`.
    let below = blocks[link as usize - 1].children[at.quarter(height - 1)];
    lacking_links(blocks, below, height - 1, at)
}

/// A link, a number as in a quarter, and how many blocks of the pool are taken. The pool is lent memory, so it cannot keep its own count.
#[derive(Clone, Copy)]
pub(crate) struct Taken {
    pub(crate) link: u32,
    pub(crate) spent: u32,
}

/// The link itself where it leads to a block; else that of the first block that is not taken, which is taken and cleared.
fn open(blocks: &mut [Block], taken: Taken) -> Taken
    requires few { taken.spent < 2 ^ 32 - 1 }
    requires room { taken.link ≡ 0 → taken.spent < length blocks.old }
    ensures untouched { Untouched blocks.old blocks.new result.spent }
    ensures opened { Opened (links blocks.old) (links blocks.new) taken.link result.link taken.spent result.spent }
{
    if taken.link > 0 {
        return taken;
    }
    blocks[taken.spent as usize] = Block { children: [0; 4] };
    Taken {
        link: taken.spent + 1,
        spent: taken.spent + 1,
    }
}

/// Inserts the cell below the link. Blocks are taken from the first on that is not taken.
pub(crate) fn insert(blocks: &mut [Block], taken: Taken, height: u8, at: Cell) -> Taken
    requires low { height ≤ 16 }
    requires room { taken.spent + lacks (links blocks.old) taken.link height at.u at.v ≤ capacity_of (length blocks.old) }
    requires tree { Tree (links blocks.old) taken.link height taken.spent }
    ensures untouched { Untouched blocks.old blocks.new result.spent }
    ensures grown { Grown (links blocks.old) (links blocks.new) taken.link result.link taken.spent result.spent height at.u at.v }
{
    if height == 0 {
        return Taken { link: 1, ..taken };
    }
    let block = open(blocks, taken);
    let i = block.link as usize - 1;
    let k = at.quarter(height - 1);
    let child = Taken {
        link: blocks[i].children[k],
        spent: block.spent,
    };
    let below = insert(blocks, child, height - 1, at);
    blocks[i].set(k, below.link);
    Taken {
        link: block.link,
        spent: below.spent,
    }
}
