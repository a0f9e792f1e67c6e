//! The trait of all stores.

ghost use Rattle.std.specs.Prelude.{◌≡◌};
ghost use Rattle.graph.specs.Graph.{at};
ghost use Rattle.relation.specs.Meaning.{Meaning, Lawful, held_size, held_weight, fits?, put_answer, after_put};

use crate::answer::{Grant, StoreFault};
use graph::Triple;

/// A set of triples in range whose weight stays within a capacity. What a store means is one record, and every call is promised over it; only the set ever changes.
pub trait Store {
    ghost meaning: { Self → Meaning };

    // Owed by every implementation: labels and nodes are few, each held triple is in range, a set contained in another weighs no more than it, and the held set weighs no more than the capacity.
    ghost lawful: { (s : Self) → Lawful (meaning s) };

    /// The number of labels, at most 64.
    fn labels(&self) -> u8
        ensures { result ≡ (meaning self.now).labels };

    /// The number of nodes, at most 1,024.
    fn nodes(&self) -> u16
        ensures { result ≡ (meaning self.now).nodes };

    /// How many triples are held.
    fn size(&self) -> u32
        ensures { result ≡ held_size (meaning self.now) };

    /// What the held triples weigh together.
    fn spent(&self) -> u64
        ensures { result ≡ held_weight (meaning self.now) };

    /// What the held triples may weigh at most.
    fn capacity(&self) -> u64
        ensures { result ≡ (meaning self.now).capacity };

    /// Whether the triple is held.
    fn has(&self, triple: Triple) -> bool
        ensures { result ≡ at (meaning self.now).held triple };

    /// Whether the triple is in range, and the held triples together with it weigh no more than the capacity.
    fn fits(&self, triple: Triple) -> bool
        ensures { result ≡ at (fits? (meaning self.now)) triple };

    /// Holds the triple from now on, and says whether that is new. Refuses with LABEL, NODE or FULL, in this order, and then holds what it held.
    fn put(&mut self, triple: Triple) -> Result<Grant, StoreFault>
        ensures answer { result ≡ at (put_answer (meaning self.old)) triple }
        ensures after { meaning self.new ≡ at (after_put (meaning self.old)) triple };
}
