//! What every other crate builds on: the refusals and their numbers, triples and the counts that they are in range of, the items of rules, and the laws of what rules define over a graph.

#![tactic(auto)]

mod counts;
mod item;
mod laws;
mod numbered;
mod refusal;
mod triple;

pub use counts::{Counts, FitFault, RangeFault};
pub use item::Item;
pub use laws::{
    bytes_match, defined_grows, defined_in_range, defined_least, due_defined, edges_defined,
    ground_needed, saturation_exact, solution_exact, worked_cases,
};
pub use numbered::Numbered;
pub use refusal::Refusal;
pub use triple::Triple;

#[cfg(test)]
mod tests;
