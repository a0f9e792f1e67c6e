//! The grid itself, and what holds of it at all times.

ghost use Rattle.std.specs.Prelude.{◌≡◌, ◌*◌, ◌≤◌, length};
ghost use Rattle.relation.specs.Sets.{size_of};
ghost use Rattle.grid.specs.Bits.{cell};

use graph::Counts;

mod bits;
mod make;
mod store;

/// A store with a bit for each triple, in lent words. Among N nodes the triple (a, u, v) has bit (a × N + u) × N + v, counted from the lowest bit of the first word. Every set weighs 0, and the capacity is 0.
#[derive(Drop)]
pub struct Grid<'a> {
    words: &'a mut [u64],
    counts: Counts,
    size: u32,
    ghost few: { (counts.labels ≤ 64) × (counts.nodes ≤ 1024) },
    ghost room: { counts.labels * counts.nodes * counts.nodes ≤ 64 * length words.now },
    ghost counted: { size ≡ size_of counts.labels counts.nodes (cell words.now counts.labels counts.nodes) },
}
