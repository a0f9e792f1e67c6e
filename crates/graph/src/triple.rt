//! Triples, which edges and held pairs of nodes are.

ghost use Rattle.std.specs.Prelude.{◌≡◌};
ghost use Rattle.graph.specs.Graph.{triple};

/// A label, the node that it starts from and the node that it goes to.
#[derive(Clone, Copy, Debug, PartialEq, Eq)]
pub struct Triple {
    /// The label.
    pub label: u8,
    /// The node that it starts from.
    pub from: u16,
    /// The node that it goes to.
    pub to: u16,
}

impl Triple {
    /// The triple of a label, from a node to a node.
    pub fn new(label: u8, from: u16, to: u16) -> Self
        ensures { result ≡ triple label from to }
    {
        Triple { label, from, to }
    }
}
