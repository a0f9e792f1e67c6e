//! Items, the letters of rules and strings, and the bytes that stand for them in files.

ghost use Rattle.std.specs.Prelude.{◌≡◌};
ghost use Rattle.graph.specs.Items.{byte_item, item_byte};

use crate::refusal::Refusal;

/// One letter of a rule or a string: a label, taken along an edge or against it.
#[derive(Clone, Copy, Debug, PartialEq, Eq)]
pub enum Item {
    /// The label, taken from where an edge starts to where it goes.
    Forward(u8),
    /// The label, taken from where an edge goes to where it starts.
    Reversed(u8),
}

/// The item that a byte of a file stands for. A byte that stands for none is refused: LABEL.
impl TryFrom<u8> for Item {
    type Error = Refusal;

    ghost try_from_gives = { λ byte r. r ≡ byte_item byte };

    fn try_from(byte: u8) -> Result<Self, Refusal> {
        match byte {
            0..=63 => Ok(Item::Forward(byte)),
            128..=191 => Ok(Item::Reversed(byte - 128)),
            _ => Err(Refusal::Label),
        }
    }
}

/// The byte that stands for an item in a file. An item whose label no byte can give is refused: LABEL.
impl TryFrom<Item> for u8 {
    type Error = Refusal;

    ghost try_from_gives = { λ item r. r ≡ item_byte item };

    fn try_from(item: Item) -> Result<Self, Refusal> {
        match item {
            Item::Forward(label) if label < 64 => Ok(label),
            Item::Reversed(label) if label < 64 => Ok(label + 128),
            _ => Err(Refusal::Label),
        }
    }
}
