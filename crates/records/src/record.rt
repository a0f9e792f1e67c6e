//! What one record says, in a file and in output.

ghost use Rattle.std.specs.Prelude.{◌≡◌, length};
ghost use Rattle.records.specs.Format.{encode};
ghost use Rattle.records.specs.Reading.{entry};

use graph::{Counts, Refusal, Triple};

/// One record of a file. A rule's items are a part of the file itself.
#[derive(Clone, Copy, Debug, PartialEq)]
pub enum Record<'a> {
    /// GR: how many labels and nodes there are.
    Header(Counts),
    /// RL: a rule's head and its items, a byte each.
    Rule { head: u8, items: &'a [u8] },
    /// ED: a label, the node that its edge starts from and the node it goes to.
    Edge(Triple),
    /// EN: the file ends here.
    End,
}

impl Record<'_> {
    /// How many bytes the record takes in a file.
    pub(crate) fn size(&self) -> usize
        ensures { result ≡ length (encode (entry self.now)) }
    {
        match self {
            Record::Header(_) => 5,
            Record::Rule { items, .. } => 4 + items.len(),
            Record::Edge(_) => 7,
            Record::End => 2,
        }
    }
}

/// A record of a file, with the byte place of its mark.
#[derive(Clone, Copy, Debug, PartialEq)]
pub struct Token<'a> {
    /// How many bytes stand before the record's mark.
    pub place: usize,
    /// What the record says.
    pub record: Record<'a>,
}

/// A record that stands in output alone.
#[derive(Clone, Copy, Debug, PartialEq)]
pub enum Output {
    /// PR: a pair of nodes of the label whose listing this is.
    Pair { from: u16, to: u16 },
    /// LS: a label, and how many pairs its listing has.
    Listing { label: u8, pairs: u32 },
    /// NO: why the input was refused, and at which byte place.
    No { refusal: Refusal, place: u32 },
}
