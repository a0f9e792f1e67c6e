//! A whole file from one memory to another, record by record.

ghost use Rattle.std.specs.Prelude.{◌≡◌};
ghost use Rattle.graph.specs.declared.refusal.Refusal.TheVariants.{Shape};
ghost use Rattle.records.specs.Copying.{fault, Copies};

use crate::file::{File, Misshapen};
use crate::record::Token;
use graph::Refusal;

/// Why a file was refused, and at which byte place.
#[derive(Clone, Copy, Debug, PartialEq, Eq)]
pub struct Fault {
    /// Why.
    pub refusal: Refusal,
    /// How many bytes stand before the place.
    pub place: usize,
}

impl From<Misshapen> for Fault {
    ghost from_gives = { λ m f. f ≡ fault Shape m.place };

    fn from(misshapen: Misshapen) -> Self {
        Fault {
            refusal: Refusal::Shape,
            place: misshapen.place,
        }
    }
}

/// Reads `bytes` as a file, writes it record by record to the front of `out`, and says how many bytes that took. Refuses other bytes with SHAPE at their place, then a file that has no room with SHORT at its length, and leaves `out` as it was.
pub fn copy_file(bytes: &[u8], out: &mut [u8]) -> Result<usize, Fault>
    ensures { Copies bytes.now out.old out.new result }
{
    let file = File::read(bytes)?;
    if out.len() < bytes.len() {
        return Err(Fault {
            refusal: Refusal::Short,
            place: bytes.len(),
        });
    }
    for Token { place, record } in file.records() {
        record
            .write(&mut out[place..])
            .map_err(|refusal| Fault { refusal, place })?;
    }
    Ok(bytes.len())
}
