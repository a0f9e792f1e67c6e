//! One record a call, to the front of the memory that is left. The room is looked at before anything is written.

ghost use Rattle.std.specs.Prelude.{◌≡◌, ◌++◌};
ghost use Rattle.records.specs.Format.{two, encode_output};
ghost use Rattle.records.specs.Reading.{entry};
ghost use Rattle.records.specs.Writing.{put_answer, after_put, write_answer, after_write};

use crate::record::{Output, Record};
use graph::{Counts, Numbered, Refusal, Triple};

/// Writes `front` and `tail` to the front of `out`, and says how many bytes they are.
fn put(front: &[u8], tail: &[u8], out: &mut [u8]) -> Result<usize, Refusal>
    ensures answer { result ≡ put_answer (front.now ++ tail.now) out.old }
    ensures memory { out.new ≡ after_put (front.now ++ tail.now) out.old }
{
    let size = front.len() + tail.len();
    if out.len() < size {
        return Err(Refusal::Short);
    }
    out[..front.len()].copy_from_slice(front);
    out[front.len()..size].copy_from_slice(tail);
    Ok(size)
}

/// The bytes of a number of nodes.
fn node_bytes(nodes: u16) -> [u8; 2]
    ensures { result ≡ two nodes }
{
    nodes.to_be_bytes()
}

/// The bytes of two nodes.
fn pair_bytes(from: u16, to: u16) -> [u8; 4]
    ensures { result ≡ two from ++ two to }
{
    let [f1, f0] = from.to_be_bytes();
    let [t1, t0] = to.to_be_bytes();
    [f1, f0, t1, t0]
}

impl Record<'_> {
    /// Writes the record to the front of `out`, and says how many bytes it took. Refuses a rule of over 255 items with LONG, then a record that has no room with SHORT, and leaves `out` as it was.
    // The hint keeps the copy of a file quick in programs that write records elsewhere too.
    #[inline]
    pub fn write(&self, out: &mut [u8]) -> Result<usize, Refusal>
        ensures answer { result ≡ write_answer (entry self.now) out.old }
        ensures memory { out.new ≡ after_write (entry self.now) out.old }
    {
        match *self {
            Record::Header(Counts { labels, nodes }) => {
                put(&[b'G', b'R', labels], &node_bytes(nodes), out)
            }
            Record::Rule { head, items } => {
                let count = u8::try_from(items.len()).map_err(|_| Refusal::Long)?;
                put(&[b'R', b'L', head, count], items, out)
            }
            Record::Edge(Triple { label, from, to }) => {
                put(&[b'E', b'D', label], &pair_bytes(from, to), out)
            }
            Record::End => put(b"EN", &[], out),
        }
    }
}

impl Output {
    /// Writes the record to the front of `out`, and says how many bytes it took. Refuses with SHORT where it has no room, and leaves `out` as it was.
    pub fn write(&self, out: &mut [u8]) -> Result<usize, Refusal>
        ensures answer { result ≡ put_answer (encode_output self.now) out.old }
        ensures memory { out.new ≡ after_put (encode_output self.now) out.old }
    {
        match *self {
            Output::Pair { from, to } => put(b"PR", &pair_bytes(from, to), out),
            Output::Listing { label, pairs } => {
                put(&[b'L', b'S', label], &pairs.to_be_bytes(), out)
            }
            Output::No { refusal, place } => {
                put(&[b'N', b'O', refusal.number()], &place.to_be_bytes(), out)
            }
        }
    }
}
