//! How many labels and nodes there are, and what is in range of them.

ghost use Rattle.std.specs.Prelude.{◌≡◌};
ghost use Rattle.graph.specs.Counts.{counts, counts_answer, in_range?, range_answer, fit_refusal, fit_fault_number, range_refusal};
ghost use Rattle.graph.specs.Graph.{at};

use crate::numbered::Numbered;
use crate::refusal::Refusal;
use crate::triple::Triple;

const MOST_LABELS: u8 = 64;

const MOST_NODES: u16 = 1024;

/// How many labels and how many nodes there are. A label is below the one number, a node below the other.
#[derive(Clone, Copy, Debug, PartialEq, Eq)]
pub struct Counts {
    /// The number of labels.
    pub labels: u8,
    /// The number of nodes.
    pub nodes: u16,
}

impl Counts {
    /// The counts of so many labels and nodes, which may be any numbers.
    pub fn new(labels: u8, nodes: u16) -> Self
        ensures { result ≡ counts labels nodes }
    {
        Counts { labels, nodes }
    }

    /// Whether a store may have so many labels and nodes: 1 to 64 labels, 1 to 1,024 nodes. Refuses others with COUNTS.
    pub fn fit(self) -> Result<(), FitFault>
        ensures { result ≡ counts_answer self.labels self.nodes }
    {
        if (1..=MOST_LABELS).contains(&self.labels) && (1..=MOST_NODES).contains(&self.nodes) {
            Ok(())
        } else {
            Err(FitFault::Counts)
        }
    }

    /// Whether the label and the nodes of a triple are in range, or which of them is not. The label comes first.
    pub fn check(self, triple: Triple) -> Result<(), RangeFault>
        ensures { result ≡ at (range_answer self.labels self.nodes) triple }
    {
        if triple.label >= self.labels {
            return Err(RangeFault::Label);
        }
        if triple.from >= self.nodes || triple.to >= self.nodes {
            return Err(RangeFault::Node);
        }
        Ok(())
    }

    /// Whether the label and the nodes of a triple are in range.
    pub fn covers(self, triple: Triple) -> bool
        ensures { result ≡ at (in_range? self.labels self.nodes) triple }
    {
        self.check(triple).is_ok()
    }
}

/// Why a store of some numbers of labels and nodes cannot be made. The first case that applies is the answer.
#[derive(Clone, Copy, Debug, PartialEq, Eq)]
pub enum FitFault {
    /// The number of labels or of nodes is out of its range.
    Counts = 1,
    /// There is too little memory for that many labels and nodes.
    Memory = 2,
}

impl From<FitFault> for Refusal {
    ghost from_gives = { λ f r. r ≡ fit_refusal f };

    fn from(fault: FitFault) -> Self {
        match fault {
            FitFault::Counts => Refusal::Counts,
            FitFault::Memory => Refusal::Memory,
        }
    }
}

/// The number of a fault is that of its refusal, and stands at its case.
impl Numbered for FitFault {
    ghost number_of = { fit_fault_number };

    fn number(self) -> u8 {
        // `as` is the way to the number that a case is declared with.
        self as u8
    }
}

/// What of a triple is out of range. The first case that applies is the answer.
#[derive(Clone, Copy, Debug, PartialEq, Eq)]
pub enum RangeFault {
    /// The label is.
    Label,
    /// One of the nodes is.
    Node,
}

impl From<RangeFault> for Refusal {
    ghost from_gives = { λ f r. r ≡ range_refusal f };

    fn from(fault: RangeFault) -> Self {
        match fault {
            RangeFault::Label => Refusal::Label,
            RangeFault::Node => Refusal::Node,
        }
    }
}
