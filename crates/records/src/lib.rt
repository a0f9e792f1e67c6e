//! Record files: a reader that copies nothing, a writer, and the copy of a whole file.

#![tactic(auto)]

mod copy;
mod file;
mod front;
mod reader;
mod record;
mod writer;

pub use copy::{Fault, copy_file};
pub use file::{File, Misshapen};
pub use reader::Records;
pub use record::{Output, Record, Token};

#[cfg(test)]
mod tests;
