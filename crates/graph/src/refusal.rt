//! Why calls refuse, and the numbers that say so in files and answers.

ghost use Rattle.graph.specs.Refusals.{refusal_number};

use crate::numbered::Numbered;

/// Why a call refuses. Each case has the number by which files and answers name it.
#[derive(Clone, Copy, Debug, PartialEq, Eq)]
pub enum Refusal {
    /// The number of labels or of nodes is out of its range.
    Counts = 1,
    /// There is too little memory for that many labels and nodes.
    Memory = 2,
    /// The bytes are no record file.
    Shape = 3,
    /// A file was made for other numbers of labels and nodes.
    Match = 4,
    /// A rule has too many items.
    Long = 5,
    /// A label is out of range.
    Label = 6,
    /// There is no room for one rule more.
    Rules = 7,
    /// A node is out of range.
    Node = 8,
    /// There is no room for one triple more.
    Full = 9,
    /// The output has too little room.
    Short = 10,
}

impl Numbered for Refusal {
    ghost number_of = { refusal_number };

    fn number(self) -> u8 {
        // `as` is the way to the number that a case is declared with.
        self as u8
    }
}
