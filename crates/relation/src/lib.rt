//! What a store of triples is: one meaning, a trait whose calls are promised over it, and a routine that drives any store.

#![tactic(auto)]

mod answer;
mod example;
mod script;
mod store;

pub use answer::{Grant, StoreFault};
pub use example::MATCHED_PAIRS;
pub use script::{Put, drive};
pub use store::Store;

#[cfg(test)]
mod tests;
