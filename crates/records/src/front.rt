//! One record at the front of some bytes: its mark first, and then a function for the fields of each kind.

ghost use Rattle.std.specs.Prelude.{◌++◌, codes};
ghost use Rattle.records.specs.Reading.{Front};

use crate::record::Record;
use graph::{Counts, Triple};

/// The record that `bytes` begins with.
pub(crate) fn front(bytes: &[u8]) -> Option<Record<'_>>
    ensures { Front bytes.now result }
{
    match bytes {
        [b'G', b'R', fields @ ..] => header(fields),
        [b'R', b'L', fields @ ..] => rule(fields),
        [b'E', b'D', fields @ ..] => edge(fields),
        [b'E', b'N', ..] => Some(Record::End),
        _ => None,
    }
}

/// The header that the mark GR and `fields` begin with.
fn header(fields: &[u8]) -> Option<Record<'_>>
    ensures { Front (codes "GR" ++ fields.now) result }
{
    let &[labels, n1, n0, ..] = fields else {
        return None;
    };
    let nodes = u16::from_be_bytes([n1, n0]);
    Some(Record::Header(Counts { labels, nodes }))
}

/// The rule that the mark RL and `fields` begin with. Its items are a part of `fields`.
fn rule(fields: &[u8]) -> Option<Record<'_>>
    ensures { Front (codes "RL" ++ fields.now) result }
{
    let [head, count, rest @ ..] = fields else {
        return None;
    };
    let items = rest.get(..usize::from(*count))?;
    Some(Record::Rule { head: *head, items })
}

/// The edge that the mark ED and `fields` begin with.
fn edge(fields: &[u8]) -> Option<Record<'_>>
    ensures { Front (codes "ED" ++ fields.now) result }
{
    let &[label, f1, f0, t1, t0, ..] = fields else {
        return None;
    };
    let from = u16::from_be_bytes([f1, f0]);
    let to = u16::from_be_bytes([t1, t0]);
    Some(Record::Edge(Triple { label, from, to }))
}
