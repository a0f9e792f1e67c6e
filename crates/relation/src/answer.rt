//! What a store answers to a triple that it is given.

ghost use Rattle.std.specs.Prelude.{◌≡◌};
ghost use Rattle.relation.specs.Answers.{grant_number, fault_refusal, fault_number, range_fault};

use graph::{Numbered, RangeFault, Refusal};

/// What a call says of what it takes: that it had it already, or that it did not.
#[derive(Clone, Copy, Debug, PartialEq, Eq)]
pub enum Grant {
    /// It was held already.
    Known = 0,
    /// It is held from now on.
    New = 1,
}

impl Numbered for Grant {
    ghost number_of = { grant_number };

    fn number(self) -> u8 {
        // `as` is the way to the number that a case is declared with.
        self as u8
    }
}

/// Why a store refuses a triple. The first case that applies is the answer. The two cases of a `RangeFault` stand beside the third, so that a `match` goes one deep.
#[derive(Clone, Copy, Debug, PartialEq, Eq)]
pub enum StoreFault {
    /// The label is out of range.
    Label = 6,
    /// One of the nodes is out of range.
    Node = 8,
    /// The held triples and this one would weigh more than the capacity.
    Full = 9,
}

impl From<RangeFault> for StoreFault {
    ghost from_gives = { λ r f. f ≡ range_fault r };

    fn from(fault: RangeFault) -> Self {
        match fault {
            RangeFault::Label => StoreFault::Label,
            RangeFault::Node => StoreFault::Node,
        }
    }
}

impl From<StoreFault> for Refusal {
    ghost from_gives = { λ f r. r ≡ fault_refusal f };

    fn from(fault: StoreFault) -> Self {
        match fault {
            StoreFault::Label => Refusal::Label,
            StoreFault::Node => Refusal::Node,
            StoreFault::Full => Refusal::Full,
        }
    }
}

/// The number of a fault is that of its refusal, and stands at its case.
impl Numbered for StoreFault {
    ghost number_of = { fault_number };

    fn number(self) -> u8 {
        // `as`, as for a `Grant`.
        self as u8
    }
}
