//! A grid as a store.

ghost use Rattle.std.specs.Prelude.{◌≡◌};
ghost use Rattle.graph.specs.Graph.{at};
ghost use Rattle.relation.specs.Meaning.{put_answer, after_put};
ghost use Rattle.grid.specs.Bits.{words_after_put};
ghost use Rattle.grid.specs.Grids.{grid_meaning, grid_lawful};

use super::Grid;
use graph::Triple;
use relation::{Grant, Store, StoreFault};

impl Store for Grid<'_> {
    ghost meaning = { grid_meaning };

    ghost lawful = { grid_lawful };

    fn labels(&self) -> u8 {
        self.counts.labels
    }

    fn nodes(&self) -> u16 {
        self.counts.nodes
    }

    fn size(&self) -> u32 {
        self.size
    }

    fn spent(&self) -> u64 {
        0
    }

    fn capacity(&self) -> u64 {
        0
    }

    fn has(&self, triple: Triple) -> bool {
        let Ok(at) = self.place(triple) else {
            return false;
        };
        self.is_set(at)
    }

    fn fits(&self, triple: Triple) -> bool {
        self.counts.covers(triple)
    }

    fn put(&mut self, triple: Triple) -> Result<Grant, StoreFault>
        ensures answer { result ≡ at (put_answer (grid_meaning self.old)) triple }
        ensures after { grid_meaning self.new ≡ at (after_put (grid_meaning self.old)) triple }
        ensures memory { self.new.words.now ≡ at (words_after_put self.old.words.now self.old.counts.labels self.old.counts.nodes) triple }
        ensures lent { self.new.words.ghost_name ≡ self.old.words.ghost_name }
    {
        let at = self.place(triple)?;
        if self.is_set(at) {
            return Ok(Grant::Known);
        }
        self.words[at / 64] |= 1 << (at % 64);
        self.size += 1;
        Ok(Grant::New)
    }
}
