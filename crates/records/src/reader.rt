//! A pass over the records of a file.

ghost use Rattle.std.specs.Prelude.{◌≤◌, length};

mod pass;

/// Gives the records that stand one after another in a file.
#[derive(Drop)]
pub struct Records<'a> {
    input: &'a [u8],
    /// How many bytes are read. `input` is not cut shorter instead, since a token says its place in the whole input.
    place: usize,
    ghost within: { place ≤ length input.now },
}
