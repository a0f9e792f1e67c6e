//! A store of triples as quadtrees, one for each label, whose blocks come from a lent pool.

#![tactic(auto)]

mod block;
mod cell;
mod descent;
mod heights;
mod quadtree;

pub use block::Block;
pub use heights::height;
pub use quadtree::Quadtree;

#[cfg(test)]
mod tests;
