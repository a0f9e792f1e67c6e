//! The quadtree: for each label a tree of blocks over all pairs of nodes.

ghost use Rattle.std.specs.Prelude.{◌≡◌, ℕ, ◌≤◌, length, nat_lt};
ghost use Rattle.relation.specs.Sets.{one, size_of};
ghost use Rattle.quadtree.specs.Heights.{height_of};
ghost use Rattle.quadtree.specs.Pools.{links};
ghost use Rattle.quadtree.specs.Trees.{holding, in_trees, bare_in_trees, Inside};
ghost use Rattle.quadtree.specs.Weights.{weight_of};

use crate::block::Block;
use graph::Counts;

mod make;
mod store;

/// A store whose triples are cells of trees, one tree for each label. What it weighs is how many blocks it takes from a lent pool.
#[derive(Drop)]
pub struct Quadtree<'a> {
    blocks: &'a mut [Block],
    // The root of each label's tree: a number as in a quarter, 0 where the tree is empty.
    roots: [u32; 64],
    // How many blocks are taken, from the first on; all behind them is as the lender left it.
    spent: u32,
    counts: Counts,
    height: u8,
    // How many may be taken: 0 where the quadtree was made without a fit.
    capacity: u32,
    size: u32,
    ghost few: { (counts.labels ≤ 64) × (counts.nodes ≤ 1024) },
    ghost tall: { height ≡ height_of counts.nodes },
    ghost room: { (spent ≤ capacity) × (capacity ≤ length blocks.now) × (capacity ≤ 65536) },
    // Each of the first `spent` blocks stands in the trees once, and no other block does.
    ghost tree: { (b : ℕ) → in_trees (links blocks.now) roots counts.labels height b ≡ one (nat_lt b spent) },
    // No block in the trees is empty.
    ghost full: { bare_in_trees (links blocks.now) roots counts.labels height ≡ 0 },
    // No cell in the trees is out of range.
    ghost inside: { Inside (links blocks.now) roots counts.labels counts.nodes height },
    ghost weighed: { spent ≡ weight_of counts.labels counts.nodes height (holding (links blocks.now) roots counts.labels counts.nodes height) },
    ghost sized: { size ≡ size_of counts.labels counts.nodes (holding (links blocks.now) roots counts.labels counts.nodes height) },
}
