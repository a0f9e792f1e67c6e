//! The whole program as a function: the bytes of an input to the bytes of its answer.

#![tactic(auto)]

ghost use Rattle.report.specs.Reply.{Limited, Replies};

use graph::Refusal;
use records::{Fault, Output, copy_file};

/// The most bytes that an input may have.
pub const LIMIT: usize = 65_535;

/// Copies `input` to the front of `out` if it is a file and not over the limit.
fn copy_limited(input: &[u8], out: &mut [u8]) -> Result<usize, Fault>
    ensures { Limited input.now out.old out.new result }
{
    if input.len() > LIMIT {
        return Err(Fault {
            refusal: Refusal::Shape,
            place: LIMIT,
        });
    }
    copy_file(input, out)
}

/// Writes the answer to `input` to the front of `out`, and says how many bytes it has: the file itself, or one NO record. Refuses with SHORT where the answer has no room, and leaves `out` as it was.
pub fn reply(input: &[u8], out: &mut [u8]) -> Result<usize, Refusal>
    ensures { Replies input.now out.old out.new result }
{
    // A `match`: of a closure that writes to `out` nothing could be concluded here.
    match copy_limited(input, out) {
        Ok(size) => Ok(size),
        Err(Fault { refusal, place }) => {
            let place = u32::try_from(place).unwrap();
            Output::No { refusal, place }.write(out)
        }
    }
}

#[cfg(test)]
mod tests;
