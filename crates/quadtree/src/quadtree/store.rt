//! The quadtree as a store.

ghost use Rattle.std.specs.Prelude.{◌≡◌, ◌+◌, nat_le};
ghost use Rattle.graph.specs.Graph.{at};
ghost use Rattle.relation.specs.Meaning.{held_weight, put_answer, after_put};
ghost use Rattle.quadtree.specs.Quadtrees.{blocks_of, quad_meaning, quad_lawful, Lacks, BlocksAfter};

use crate::descent::{Taken, insert, lacking_links};
use crate::quadtree::Quadtree;
use graph::{RangeFault, Triple};
use relation::{Grant, Store, StoreFault};

impl Quadtree<'_> {
    /// How many blocks are lacking for a triple, `None` where it is held, or what of it is out of range.
    fn lacking(&self, triple: Triple) -> Result<Option<u8>, RangeFault>
        ensures { Lacks self.now triple result }
    {
        self.counts.check(triple)?;
        let root = self.roots[usize::from(triple.label)];
        // One of the links is the cell's own.
        Ok(lacking_links(self.blocks, root, self.height, triple.into()).checked_sub(1))
    }

    /// Whether so many blocks are left.
    fn has_room(&self, lacking: u8) -> bool
        ensures { result ≡ nat_le (self.now.spent + lacking) self.now.capacity }
    {
        self.spent + u32::from(lacking) <= self.capacity
    }
}

impl Store for Quadtree<'_> {
    ghost meaning = { quad_meaning };

    ghost lawful = { quad_lawful };

    fn labels(&self) -> u8 {
        self.counts.labels
    }

    fn nodes(&self) -> u16 {
        self.counts.nodes
    }

    fn size(&self) -> u32 {
        self.size
    }

    fn spent(&self) -> u64 {
        u64::from(self.spent)
    }

    fn capacity(&self) -> u64 {
        u64::from(self.capacity)
    }

    fn has(&self, triple: Triple) -> bool {
        self.lacking(triple) == Ok(None)
    }

    fn fits(&self, triple: Triple) -> bool {
        match self.lacking(triple) {
            Ok(Some(blocks)) => self.has_room(blocks),
            Ok(None) => true,
            Err(_) => false,
        }
    }

    fn put(&mut self, triple: Triple) -> Result<Grant, StoreFault>
        ensures answer { result ≡ at (put_answer (quad_meaning self.old)) triple }
        ensures after { quad_meaning self.new ≡ at (after_put (quad_meaning self.old)) triple }
        ensures blocks { BlocksAfter (blocks_of self.old) (blocks_of self.new) (held_weight (quad_meaning self.new)) result }
        ensures lent { self.new.blocks.ghost_name ≡ self.old.blocks.ghost_name }
    {
        let Some(lacking) = self.lacking(triple)? else {
            return Ok(Grant::Known);
        };
        if !self.has_room(lacking) {
            return Err(StoreFault::Full);
        }
        let i = usize::from(triple.label);
        let root = Taken {
            link: self.roots[i],
            spent: self.spent,
        };
        let taken = insert(self.blocks, root, self.height, triple.into());
        self.roots[i] = taken.link;
        self.spent = taken.spent;
        self.size += 1;
        Ok(Grant::New)
    }
}
