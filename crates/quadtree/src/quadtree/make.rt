//! How a quadtree is made.

ghost use Rattle.std.specs.Prelude.{◌≡◌, ◌≤◌, length};
ghost use Rattle.graph.specs.Counts.{counts_answer};
ghost use Rattle.quadtree.specs.Making.{capacity_of, empty_quadtree, made};
ghost use Rattle.quadtree.specs.Quadtrees.{blocks_of, quad_meaning};

use crate::block::Block;
use crate::heights::tree_height;
use crate::quadtree::Quadtree;
use graph::{Counts, FitFault};

const MOST_BLOCKS: u32 = 65536;

impl<'a> Quadtree<'a> {
    /// Whether a quadtree can have so many labels and nodes. Refuses others with COUNTS.
    pub fn fit(counts: Counts) -> Result<(), FitFault>
        ensures { result ≡ counts_answer counts.labels counts.nodes }
    {
        counts.fit()
    }

    /// A quadtree with no triple, over a pool that stays as it is. Its capacity is the pool's length, or 65,536 if that is less. Where `fit` refuses it has no labels, no nodes and no capacity.
    pub fn new(blocks: &'a mut [Block], counts: Counts) -> Quadtree<'a>
        ensures lent { result.blocks.ghost_name ≡ blocks.entry.ghost_name }
        ensures untouched { blocks_of result ≡ blocks.old }
        ensures empty { quad_meaning result ≡ made counts.labels counts.nodes (length blocks.old) }
    {
        let Ok(()) = Self::fit(counts) else {
            return Self::empty(blocks, Counts::new(0, 0), 0);
        };
        let capacity = u32::try_from(blocks.len())
            .unwrap_or(MOST_BLOCKS)
            .min(MOST_BLOCKS);
        Self::empty(blocks, counts, capacity)
    }

    /// The same, for counts that are in range.
    fn empty(blocks: &'a mut [Block], counts: Counts, capacity: u32) -> Quadtree<'a>
        requires few { (counts.labels ≤ 64) × (counts.nodes ≤ 1024) }
        requires room { capacity ≤ capacity_of (length blocks.old) }
        ensures lent { result.blocks.ghost_name ≡ blocks.entry.ghost_name }
        ensures untouched { blocks_of result ≡ blocks.old }
        ensures empty { quad_meaning result ≡ empty_quadtree counts.labels counts.nodes capacity }
    {
        Quadtree {
            blocks,
            roots: [0; 64],
            spent: 0,
            counts,
            height: tree_height(counts.nodes),
            capacity,
            size: 0,
        }
    }
}
