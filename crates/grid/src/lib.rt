//! The store that has a bit for each triple, in words that the caller lends.

#![tactic(auto)]

mod grid;

pub use grid::Grid;

#[cfg(test)]
mod tests;
